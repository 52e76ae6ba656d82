//! The client at the other end of standard input and output.
ghost use Rattle.std.specs.Prelude.{None};

use crate::decode::decode;
use crate::encode::encode;
use crate::frames::{Frame, next_frame};
use crate::project::Projects;
use cedar_server::{Client, ClientMessage, Fault, Notification, Received, ServerMessage, Unread};
use std::alloc::Global;
use std::io;
use std::io::{BufRead, BufReader, ErrorKind, Read, Write};

/// A client that is read from `input` and told things on `output`.
///
/// No contract can say what comes in, so `talk` claims nothing about it. Each frame of the input is one message, in order.
#[derive(Drop)]
pub struct Streams<'a, R, W> {
    input: BufReader<R>,
    output: W,
    projects: Projects<'a>,
    // Whether a head couldn't be read, so that nothing after it can be either.
    is_broken: bool,
}

impl<'a, R: Read + Drop, W: Write + Drop> Streams<'a, R, W> {
    /// A client over these streams.
    pub fn new(
        alloc: Global,
        input: R,
        output: W,
        projects: Projects<'a>,
    ) -> io::Result<Streams<'a, R, W>> {
        Ok(Streams {
            input: BufReader::new(alloc, input)?,
            output,
            projects,
            is_broken: false,
        })
    }

    // The next message.
    fn next_message(&mut self, alloc: Global) -> io::Result<ClientMessage> {
        if self.is_broken {
            return Err(io::Error::from(ErrorKind::InvalidData));
        }
        match next_frame(alloc, &mut self.input)? {
            Frame::Body(body) => Ok(decode(alloc, &body)?),
            Frame::TooLong => Ok(unread()),
            Frame::Broken => {
                self.is_broken = true;
                Ok(unread())
            }
            Frame::End => Ok(ClientMessage::Notification(Notification::Exit)),
        }
    }
}

// A message of which nothing is known.
fn unread() -> ClientMessage {
    ClientMessage::Unread(Unread::AnyText {
        fault: Some(Fault::Parse),
    })
}

impl<R: Read + Drop, W: Write + Drop> Client for Streams<'_, R, W> {
    ghost talk = { λ _. None };

    fn receive(&mut self, alloc: Global) -> io::Result<Received> {
        let message = self.next_message(alloc)?;
        let project = self.projects.wishes_for(&message)?;
        Ok(Received { message, project })
    }

    fn is_waiting(&self) -> bool {
        !self.input.buffer().is_empty()
    }

    fn tell(&mut self, alloc: Global, message: ServerMessage) -> io::Result<()> {
        let text = encode(alloc, message)?;
        self.output.write_all(text.as_bytes())?;
        self.output.flush()
    }
}
