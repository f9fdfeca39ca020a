// What queries print.
ghost use Rattle.std.specs.Prelude.{◌≡◌, ℕ, List, ◌++◌, OnOk, true};
ghost use Rattle.script_line.specs.Query.{is_query};
ghost use Rattle.host_console.specs.Looks.{Looked};
ghost use Rattle.host_console.specs.Printed.{Tells, ended, sector_text, queue_text, cursor_text, group_text, group_class_text, known_text, class_of_text};

use crate::Shows;
use crate::query::{
    put_class, put_class_vtime, put_cursor, put_entity, put_queue, put_sector, put_vtime,
};
use script_line::{Line, Look};
use sector_core::{Class, OutOfMemory};

/// Appends what a query prints, with its end. It fails only for want of memory.
pub fn tell<K: Shows>(keeper: &K, line: Line, out: &mut Vec<u8>) -> Result<(), OutOfMemory>
    requires { is_query line ≡ true }
    ensures { OnOk result ((text : List ℕ) × (out.new.items ≡ out.old.items ++ text) × Tells (K.state keeper.now) line text) }
{
    match line {
        Line::Sector { number } => tell_sector(keeper, number, out),
        Line::Queue { seat } => tell_queue(keeper, seat, out),
        Line::Cursor => tell_cursor(keeper, out),
        Line::Vtime { group } => tell_vtime(keeper, group, out),
        Line::ClassVtime { group, class } => tell_class_vtime(keeper, group, class, out),
        Line::Entity { number } => tell_entity(keeper, number, out),
        Line::Class { number } => tell_class(keeper, number, out),
        Line::Show { look } => tell_look(keeper, look, out),
        // No other line is a query.
        _ => unreachable!(),
    }
}

fn tell_sector<K: Shows>(keeper: &K, number: u64, out: &mut Vec<u8>) -> Result<(), OutOfMemory>
    ensures { OnOk result (out.new.items ≡ out.old.items ++ ended (sector_text (K.state keeper.now) number)) }
{
    put_sector(keeper, number, out).map_err(|_| OutOfMemory)?;
    out.push(b'\n')?;
    Ok(())
}

fn tell_queue<K: Shows>(keeper: &K, seat: u8, out: &mut Vec<u8>) -> Result<(), OutOfMemory>
    ensures { OnOk result (out.new.items ≡ out.old.items ++ ended (queue_text (K.state keeper.now) seat)) }
{
    put_queue(keeper, seat, out).map_err(|_| OutOfMemory)?;
    out.push(b'\n')?;
    Ok(())
}

fn tell_cursor<K: Shows>(keeper: &K, out: &mut Vec<u8>) -> Result<(), OutOfMemory>
    ensures { OnOk result (out.new.items ≡ out.old.items ++ ended (cursor_text (K.state keeper.now))) }
{
    put_cursor(keeper, out).map_err(|_| OutOfMemory)?;
    out.push(b'\n')?;
    Ok(())
}

fn tell_vtime<K: Shows>(keeper: &K, group: u8, out: &mut Vec<u8>) -> Result<(), OutOfMemory>
    ensures { OnOk result (out.new.items ≡ out.old.items ++ ended (group_text (K.state keeper.now) group)) }
{
    put_vtime(keeper, group, out).map_err(|_| OutOfMemory)?;
    out.push(b'\n')?;
    Ok(())
}

fn tell_class_vtime<K: Shows>(
    keeper: &K,
    group: u8,
    class: Class,
    out: &mut Vec<u8>,
) -> Result<(), OutOfMemory>
    ensures { OnOk result (out.new.items ≡ out.old.items ++ ended (group_class_text (K.state keeper.now) group class)) }
{
    put_class_vtime(keeper, group, class, out).map_err(|_| OutOfMemory)?;
    out.push(b'\n')?;
    Ok(())
}

fn tell_entity<K: Shows>(keeper: &K, number: u8, out: &mut Vec<u8>) -> Result<(), OutOfMemory>
    ensures { OnOk result (out.new.items ≡ out.old.items ++ ended (known_text (K.state keeper.now) number)) }
{
    put_entity(keeper, number, out).map_err(|_| OutOfMemory)?;
    out.push(b'\n')?;
    Ok(())
}

fn tell_class<K: Shows>(keeper: &K, number: u8, out: &mut Vec<u8>) -> Result<(), OutOfMemory>
    ensures { OnOk result (out.new.items ≡ out.old.items ++ ended (class_of_text (K.state keeper.now) number)) }
{
    put_class(keeper, number, out).map_err(|_| OutOfMemory)?;
    out.push(b'\n')?;
    Ok(())
}

fn tell_look<K: Shows>(keeper: &K, look: Look, out: &mut Vec<u8>) -> Result<(), OutOfMemory>
    ensures { OnOk result ((shown : List ℕ) × Looked (K.state keeper.now) look shown × (out.new.items ≡ out.old.items ++ ended shown)) }
{
    keeper.put_look(look, out).map_err(|_| OutOfMemory)?;
    out.push(b'\n')?;
    Ok(())
}
