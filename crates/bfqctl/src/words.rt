// What the words of the command line ask for.
use clap::error::ErrorKind;
use clap::{Arg, ArgAction, Command, Error};
use host_calls::OperatorCall;
use host_options::grammar_text;
use operator_words::{WordFault, words_to_call};
use script_line::{is_query, line_of};
use std::alloc::{AllocError, Global};

/// What the words ask for.
#[derive(Debug, Drop, PartialEq, Eq)]
pub enum Request {
    /// Print the help.
    Help,
    /// Print the version.
    Version,
    /// Make a call.
    Call {
        /// The path of the host's socket.
        socket: String,
        /// The call.
        call: OperatorCall,
    },
    /// Look.
    Look {
        /// The path of the host's socket for looks.
        socket: String,
        /// The line, with its end.
        line: String,
    },
}

// One option, and then the words of the call, of which `clap` reads none, so a number there may not be taken for an option.
fn bfqctl<'a>(alloc: Global) -> Result<Command<'a>, Error> {
    let socket = Arg::new(alloc, "socket")
        .long("socket")
        .required(true)
        .action(ArgAction::Set);
    let call = Arg::new(alloc, "call")
        .required(true)
        .num_args(1..)
        .trailing_var_arg(true)
        .allow_hyphen_values(true);
    let command = Command::new(alloc, "bfqctl").arg(socket)?.arg(call)?;
    Ok(command)
}

/// Why the words ask for nothing.
#[derive(Drop)]
pub enum Reason {
    /// Memory ran out while they were read.
    OutOfMemory,
    /// The command's grammar does not have them.
    Grammar(Error),
    /// A word is no text.
    NoText,
    /// These spell no call.
    NoCall(String),
}

impl Reason {
    /// What a person is told, in one line with no end.
    pub fn text(&self, alloc: Global) -> Result<String, AllocError> {
        match self {
            Reason::OutOfMemory => String::from_str(alloc, "no memory"),
            // What is missing would stand on further lines.
            Reason::Grammar(error) if error.kind() == ErrorKind::MissingRequiredArgument => {
                String::from_str(alloc, "it takes --socket PATH, and then a command")
            }
            Reason::Grammar(error) => grammar_text(alloc, error),
            Reason::NoText => String::from_str(alloc, "a word is no text"),
            Reason::NoCall(words) => format!(in alloc; "no command is spelled so: {words}"),
        }
    }
}

/// What the words ask for. The first is the name of the program.
pub fn request_of(alloc: Global, words: &[String]) -> Result<Request, Reason> {
    // It may not stand beside other words, which `clap` would let pass.
    if words.len() == 2 && words[1].as_str() == "--version" {
        return Ok(Request::Version);
    }
    let command = match bfqctl(alloc) {
        Ok(command) => command,
        Err(error) => return Err(why(error)),
    };
    let found = match command.try_get_matches_from(words) {
        Ok(found) => found,
        Err(error) if error.kind() == ErrorKind::DisplayHelp => return Ok(Request::Help),
        Err(error) => return Err(why(error)),
    };
    // No word ends the options: a call begins where they end.
    if words.iter().any(|word| word.as_str() == "--") {
        return Err(no_call(alloc, &["--"]));
    }
    let (Some(socket), Some(call)) = (found.get_str("socket"), found.get_strs("call")) else {
        return Err(no_call(alloc, &[]));
    };
    let call = match words_to_call(call) {
        Ok(call) => call,
        Err(WordFault::Usage) => return look_of(alloc, socket, call),
        Err(WordFault::OutOfMemory) => return Err(Reason::OutOfMemory),
    };
    match String::from_str(alloc, socket) {
        Ok(socket) => Ok(Request::Call { socket, call }),
        Err(_) => Err(Reason::OutOfMemory),
    }
}

// The look that the words spell, as a script does, at the socket beside the operator's.
fn look_of(alloc: Global, socket: &str, words: &[&str]) -> Result<Request, Reason> {
    // The words are joined by one space, so none has one.
    if words.iter().any(|word| word.contains(' ')) {
        return Err(no_call(alloc, words));
    }
    let Ok(mut text) = joined(alloc, words) else {
        return Err(Reason::OutOfMemory);
    };
    match line_of(text.as_bytes()) {
        Some(line) if is_query(&line) => {}
        _ => return Err(no_call(alloc, words)),
    }
    let (Ok(()), Ok(socket)) = (text.push('\n'), beside(alloc, socket)) else {
        return Err(Reason::OutOfMemory);
    };
    Ok(Request::Look { socket, line: text })
}

// The socket for looks in the folder of the operator's.
fn beside(alloc: Global, socket: &str) -> Result<String, AllocError> {
    match socket.rsplit_once('/') {
        Some((dir, _)) => format!(in alloc; "{dir}/inspect"),
        None => String::from_str(alloc, "inspect"),
    }
}

// That these words spell no call, or want of memory for them.
fn no_call(alloc: Global, words: &[&str]) -> Reason {
    match joined(alloc, words) {
        Ok(words) => Reason::NoCall(words),
        Err(_) => Reason::OutOfMemory,
    }
}

// The words with a space between each two.
fn joined(alloc: Global, words: &[&str]) -> Result<String, AllocError> {
    let mut text = String::new(alloc);
    for word in words {
        if !text.is_empty() {
            text.push_str(" ")?;
        }
        text.push_str(word)?;
    }
    Ok(text)
}

// Want of memory, and else words that are none of the program's.
fn why(error: Error) -> Reason {
    if error.kind() == ErrorKind::OutOfMemory {
        Reason::OutOfMemory
    } else {
        Reason::Grammar(error)
    }
}
