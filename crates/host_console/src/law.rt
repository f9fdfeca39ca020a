// What holds of all lines over a payload, and of the line of a machine without names.
ghost use Rattle.std.specs.Prelude.{◌≡◌, ℕ, List, Option, false};
ghost use Rattle.plain.specs.Machine.{Plain};
ghost use Rattle.plain.specs.Keeper.{State};
ghost use Rattle.base_image.specs.Image.{Disk};
ghost use Rattle.script_line.specs.declared.line.Line.{Line};
ghost use Rattle.script_line.specs.Script.{IsStrange};
ghost use Rattle.host_console.specs.Payload.{runs_over, size_of, takes_bytes};
ghost use Rattle.host_console.specs.Printed.{Desk, Prints};
ghost use Rattle.host_console.specs.State.{state_look};
ghost use Rattle.host_console.specs.Naming.{Names, IsNamed};

/// A line that takes no bytes from the payload prints over each what it prints over any other, and leaves the same keeper and image.
pub fn others_read_no_payload()
    ensures { (k : State) (disk : Disk) (one other : Option (List ℕ)) (line : Line) (text : List ℕ) (after : Desk)
        → takes_bytes line ≡ false
        → Prints (record { keeper = k; disk = disk; payload = one }) line text after
        → Prints (record { keeper = k; disk = disk; payload = other }) line text
        (record { keeper = after.keeper; disk = after.disk; payload = other }) }
{}

/// No line changes the payload.
pub fn payload_stays()
    ensures { (before after : Desk) (line : Line) (text : List ℕ) → Prints before line text after → after.payload ≡ before.payload }
{}

/// A line that does not run over a payload of that length is a bad one, whatever the keeper, the image and the payload's bytes are.
pub fn bad_by_length()
    ensures { (before : Desk) (line : Line) → runs_over (size_of before.payload) line ≡ false → IsStrange Prints before line }
{}

/// Machines that differ in names alone print one line for `show state`.
pub fn one_state()
    ensures { (names : Names) (tags : ℕ) (m other : Plain) → IsNamed names tags m other → state_look tags other ≡ state_look tags m }
{}
