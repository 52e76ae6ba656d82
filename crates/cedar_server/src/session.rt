//! A whole session with a client.
ghost use Rattle.std.specs.Prelude.{◌∷◌, [], IfOk, OnOk, List, Option, map};
ghost use Rattle.cedar_server.specs.Talks.{Event, Grows, IsSession, Settling, TakesTurn, said, told};

use crate::messages::{ClientMessage, Notification, ServerMessage, Wishes};
use crate::server::{Phase, Server};
use std::alloc::Global;
use std::io;
use std::io::ErrorKind;

/// A message that was received.
#[derive(Drop)]
pub struct Received {
    pub message: ClientMessage,
    /// The layout that the project of the message's document asks for.
    pub project: Wishes,
}

/// A client, as a server sees it.
///
/// `talk` is what is known about the session: what the client said and was sent so far. `None` claims nothing.
pub trait Client {
    /// What was said so far.
    ghost talk: { Self → Option (List Event) };

    /// The next message. It waits for one. The end of the input is an `exit`.
    fn receive(&mut self, alloc: Global) -> io::Result<Received>
        ensures { IfOk result (λ r. Grows (said r.message r.project ∷ []) (talk self.old) (talk self.new)) };

    /// Whether a part of the next message has arrived.
    fn is_waiting(&self) -> bool;

    /// Tells the client something.
    fn tell(&mut self, alloc: Global, message: ServerMessage) -> io::Result<()>
        ensures { OnOk result (Grows (told message ∷ []) (talk self.old) (talk self.new)) };
}

/// Answers a client until it ends the session, and returns the status to end with.
///
/// Each message is a step of the server, in the order in which they come, and what the server says is reported at once. What is
/// wrong with a document that changes is reported once no change waits any more. A message that can't be received or sent is an
/// error, and so is running out of memory after one that isn't a request, since the texts of the client and the server may
/// then differ.
pub fn serve<C: Client>(alloc: Global, client: &mut C) -> io::Result<u8>
    ensures { IfOk result (λ status. IsSession status (C.talk client.old) (C.talk client.new)) }
{
    let mut server = Server::new(alloc);
    'turns: for _ in 0..u64::MAX {
        take_turn(alloc, &mut server, client)?;
        if let Phase::Ended { status } = server.phase {
            return Ok(status);
        }
    }
    Err(io::Error::from(ErrorKind::Other))
}

// Receives a message and answers it.
fn take_turn<C: Client>(alloc: Global, server: &mut Server, client: &mut C) -> io::Result<()>
    ensures { OnOk result (TakesTurn server.old server.new (C.talk client.old) (C.talk client.new)) }
{
    let Received { message, project } = client.receive(alloc)?;
    // (a change waits for the next one before it is judged)
    let is_change = is_change(&message);
    settle_if(alloc, server, client, !is_change)?;
    let own = server.step(alloc, message, project)?;
    tell_all(alloc, client, own)?;
    let is_waiting = client.is_waiting();
    settle_if(alloc, server, client, !is_waiting)?;
    Ok(())
}

// Whether a message changes a document.
fn is_change(message: &ClientMessage) -> bool {
    matches!(
        message,
        ClientMessage::Notification(Notification::DidChange { .. })
    )
}

// Tells what is wrong with the documents that changed, if that is due.
fn settle_if<C: Client>(
    alloc: Global,
    server: &mut Server,
    client: &mut C,
    is_due: bool,
) -> io::Result<()>
    ensures { OnOk result (Settling server.old server.new (C.talk client.old) (C.talk client.new)) }
{
    if !is_due {
        return Ok(());
    }
    let judged = server.settle(alloc)?;
    tell_all(alloc, client, judged)
}

// Tells the client these messages, in order.
fn tell_all<C: Client>(
    alloc: Global,
    client: &mut C,
    messages: Vec<ServerMessage>,
) -> io::Result<()>
    ensures { OnOk result (Grows (map told messages.items) (C.talk client.old) (C.talk client.new)) }
{
    for message in messages {
        client.tell(alloc, message)?;
    }
    Ok(())
}
