// The sockets of a server: their files are made when it starts, and removed when it ends.
ghost use Rattle.std.specs.Prelude.{◌≡◌, ◌≤◌, length};

use crate::ServeEnd;
use std::alloc::{AllocError, Global};
use std::fs::{self, Permissions};
use std::io::{self, ErrorKind};
use std::net::Net;
use std::os::unix::fs::{FileTypeExt, PermissionsExt};
use std::os::unix::net::{UnixListener, UnixStream};
use std::rt::Files;

// Who made a socket may use it, and nobody else.
const OWNER_ALONE: u32 = 0o600;

/// The sockets at which a server listens.
#[derive(Drop)]
pub struct Doors {
    /// The operator's.
    pub operator: UnixListener,
    /// The clients', in the order of their seats.
    pub clients: Vec<UnixListener>,
    /// That of who looks, if there is to be one.
    pub inspect: Option<UnixListener>,
}

/// Whose path it is.
#[derive(Clone, Copy, Debug, PartialEq, Eq)]
pub enum Door {
    /// The operator's.
    Operator,
    /// A client's, by its seat.
    Client(u8),
    /// That of who looks.
    Inspect,
}

/// Why a path of a server cannot be had.
#[derive(Clone, Copy)]
pub struct DoorFault {
    /// Which path it is.
    pub door: Door,
    /// What the system said. `AddrInUse` with no number of the system's: a server is met there; `AlreadyExists`: a file that is no socket.
    pub error: io::Error,
}

/// Opens the socket of the operator, those of so many clients, and that of who looks, if there is to be one, in a folder. Each file that is
/// made is noted, also if a later one fails. The operator's path comes first: a running server is met there, and there alone its clients
/// don't notice.
///
/// # Errors
///
/// A path cannot be had, which `fault` then tells, or there is no memory.
pub fn open_doors<R: Files + Net>(
    rt: &R,
    alloc: Global,
    dir: &str,
    clients: u8,
    inspect: bool,
    made: &mut Vec<String>,
    fault: &mut Option<DoorFault>,
) -> Result<Doors, ServeEnd> {
    // Else the sockets would stand at the root of all files.
    if dir.is_empty() {
        *fault = Some(DoorFault {
            door: Door::Operator,
            error: ErrorKind::InvalidInput.into(),
        });
        return Err(ServeEnd::Socket);
    }
    let operator = open_door(rt, format!(in alloc; "{dir}/operator"), made);
    let operator = found(operator, Door::Operator, fault)?;
    let mut listeners = Vec::new(alloc);
    for number in 0..clients {
        let listener = open_door(rt, format!(in alloc; "{dir}/client{number}"), made);
        let listener = found(listener, Door::Client(number), fault)?;
        if listeners.push(listener).is_err() {
            return Err(ServeEnd::OutOfMemory);
        }
    }
    let inspect = if inspect {
        let listener = open_door(rt, format!(in alloc; "{dir}/inspect"), made);
        Some(found(listener, Door::Inspect, fault)?)
    } else {
        None
    };
    Ok(Doors {
        operator,
        clients: listeners,
        inspect,
    })
}

// The socket, or the end of a server that cannot have it, with a note of why.
fn found(
    opened: io::Result<UnixListener>,
    door: Door,
    fault: &mut Option<DoorFault>,
) -> Result<UnixListener, ServeEnd> {
    match opened {
        Ok(listener) => Ok(listener),
        Err(error) if error.kind() == ErrorKind::OutOfMemory => Err(ServeEnd::OutOfMemory),
        Err(error) => {
            *fault = Some(DoorFault { door, error });
            Err(ServeEnd::Socket)
        }
    }
}

/// Removes the files that were made.
pub fn remove_all(files: &impl Files, made: &[String]) {
    for path in made {
        // A file that is gone already is as it should be.
        let _ = fs::remove_file(files, path.as_str());
    }
}

// Makes the socket, notes its file, and lets its owner alone use it.
fn open_door<R: Files + Net>(
    rt: &R,
    path: Result<String, AllocError>,
    made: &mut Vec<String>,
) -> io::Result<UnixListener> {
    let path = path?;
    // There is room for the note before there is a file.
    made.reserve(1)?;
    make_way(rt, path.as_str())?;
    let listener = UnixListener::bind(rt, path.as_str())?;
    made.push(path)?;
    match made.last() {
        Some(path) => {
            fs::set_permissions(rt, path.as_str(), Permissions::from_mode(OWNER_ALONE))?
        }
        None => {}
    }
    Ok(listener)
}

// Removes a socket at which nobody listens any more, as a server that was killed leaves it. Anything else stays as it is, and the path
// cannot be had.
fn make_way<R: Files + Net>(rt: &R, path: &str) -> io::Result<()> {
    let found = match fs::symlink_metadata(rt, path) {
        Ok(found) => found.file_type(),
        Err(error) if error.kind() == ErrorKind::NotFound => return Ok(()),
        Err(error) => return Err(error),
    };
    if !found.is_socket() {
        return Err(ErrorKind::AlreadyExists.into());
    }
    match UnixStream::connect(rt, path) {
        Ok(_) => Err(ErrorKind::AddrInUse.into()),
        Err(error) if error.kind() == ErrorKind::ConnectionRefused => fs::remove_file(rt, path),
        Err(error) => Err(error),
    }
}
