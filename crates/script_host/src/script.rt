// A script run on a host.
ghost use Rattle.std.specs.Prelude.{◌<◌, ◌^◌};
ghost use Rattle.plain.specs.Step.{of_sizes};
ghost use Rattle.dispatch_core.specs.Running.{sizes_of};
ghost use Rattle.script_host.specs.Run.{IsRun, IsRunAt, IsRunOver};

use crate::host::Host;
use base_image::Image;
use bytes::Bytes;
use history::Keeper;
use host_console::{Teller, run_keeper};
use script_line::ScriptEnd;
use sector_core::Config;
use std::alloc::Global;
use std::io::{Read, Write};

/// Runs the lines of the reader in turn on a new keeper over the image, and writes what each prints before the next runs.
/// The writer is flushed before each read and at the end; a flush that fails is a write fault. Where there is no memory for
/// the keeper nothing is read or written, and so nothing flushed. The keeper and the image are never given back: the process is to end.
/// So few reads of the image have failed before that those of a script can be counted too.
pub fn run_script<R: Read, W: Write, I: Image + Drop>(
    alloc: Global,
    config: Config,
    reader: &mut R,
    writer: &mut W,
    image: I,
) -> ScriptEnd
    requires { (I.disk image).faults < 2 ^ 63 }
    ensures { IsRun (of_sizes (sizes_of config (I.disk image).sectors)) config.history_max (I.disk image)
        (R.remaining reader.old) (R.remaining reader.new) (W.contents writer.old) (W.contents writer.new) result }
{
    run_script_over(alloc, config, reader, writer, image, None)
}

/// Runs the lines of the reader in turn on a new keeper over the image and a payload, if there is one, whose bytes a `write` line may
/// take. See [`run_script`].
pub fn run_script_over<R: Read, W: Write, I: Image + Drop>(
    alloc: Global,
    config: Config,
    reader: &mut R,
    writer: &mut W,
    image: I,
    payload: Option<Bytes>,
) -> ScriptEnd
    requires { (I.disk image).faults < 2 ^ 63 }
    ensures { IsRunOver (of_sizes (sizes_of config (I.disk image).sectors)) config.history_max (I.disk image) payload
        (R.remaining reader.old) (R.remaining reader.new) (W.contents writer.old) (W.contents writer.new) result }
{
    let keeper = match Keeper::new(alloc, config, image.sectors()) {
        Ok(keeper) => keeper,
        Err(_) => return ScriptEnd::OutOfMemory,
    };
    run_script_at(alloc, keeper, reader, writer, image, payload)
}

/// Runs the lines of the reader in turn on a keeper in whatever state, over the image and a payload, if there is one. See
/// [`run_script`].
pub fn run_script_at<R: Read, W: Write, I: Image + Drop>(
    alloc: Global,
    keeper: Keeper,
    reader: &mut R,
    writer: &mut W,
    image: I,
    payload: Option<Bytes>,
) -> ScriptEnd
    requires { (I.disk image).faults < 2 ^ 63 }
    ensures { IsRunAt keeper.state (I.disk image) payload
        (R.remaining reader.old) (R.remaining reader.new) (W.contents writer.old) (W.contents writer.new) result }
{
    let teller = Teller {
        keeper: Host { keeper },
        image,
        payload,
    };
    let Ok(teller) = Box::new(alloc, teller) else {
        return ScriptEnd::OutOfMemory;
    };
    // To give back what the history keeps, block by block, would take a part of the run's time.
    run_keeper(alloc, reader, writer, Box::leak(teller))
}
