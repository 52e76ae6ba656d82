//! The server.
ghost use Rattle.std.specs.Prelude.{◌≡◌, ◌∷◌, [], ◌↔◌, IfOk, IsTrue, OnErr, OnOk, map, option_map, string_bytes};
ghost use Rattle.cedar_server.specs.Advice.{Completes, GivesFixes};
ghost use Rattle.cedar_server.specs.Layouts.{LaysOut, LaysOutPart};
ghost use Rattle.cedar_server.specs.Outline.{ShowsFolds, ShowsSelections, ShowsSymbols, ShowsTokens};
ghost use Rattle.cedar_server.specs.Sessions.{AddsJudgement, Changes, Closes, GiveText, Gives, HasNoDocuments, IsSame, IsUnjudged, JudgesAll, OfDocument, Loses, LosesAll, Misses, Opens, Receives, Sets, Settles, Starts, Steps, Takes, TakesExit, Turns, document_of, first_or_utf16, indent_for, lost, rejection_of, state_in, state_of, width_for};

use crate::advice::{complete_at, fixes_for};
use crate::documents::{
    Document, Documents, all_lost, clear_texts, cleared, diagnosed, given_text, put,
};
use crate::formatting::{format_part, format_whole};
use crate::last_text::LastText;
use crate::messages::{
    Answer, ClientMessage, ClientOptions, Failure, Fault, Id, Notification, Request, ServerMessage,
    Unread, Wishes,
};
use crate::outline::{folds_of, selections_of, symbols_of, tokens_of};
use cedar_edits::{Change, Encoding, Position, Range, changed_text};
use cedar_policy_formatter::Config;
use std::alloc::{AllocError, Global};
use std::collections::BTreeMap;

/// How far the session is.
#[derive(Clone, Copy)]
pub enum Phase {
    /// Before `initialize`.
    Starting,
    /// Between `initialize` and `shutdown`.
    Running,
    /// After `shutdown`.
    ShutDown,
    /// After `exit`, with the status that the program ends with.
    Ended { status: u8 },
}

/// A language server.
#[derive(Drop)]
pub struct Server {
    pub phase: Phase,
    /// The unit it counts characters in.
    pub encoding: Encoding,
    /// The layout that the client asks for.
    pub wishes: Wishes,
    pub documents: Documents,
    /// The URIs of the documents that changed since what is wrong with them was reported.
    pub unjudged: Vec<String>,
    // What was read of the document judged last.
    last: LastText,
}

// The columns of a line, and of a level, if neither the client nor the project asks for others.
const LINE_WIDTH: usize = 80;

const INDENT_WIDTH: u16 = 2;

impl Server {
    /// A server that waits for `initialize`.
    pub fn new(alloc: Global) -> Server
        ensures phase { result.phase ≡ Phase.Starting }
        ensures documents { HasNoDocuments result }
        ensures unjudged { result.unjudged.items ≡ [] }
    {
        Server {
            phase: Phase::Starting,
            encoding: Encoding::Utf16,
            wishes: Wishes {
                line_width: None,
                indent_width: None,
            },
            documents: BTreeMap::new(alloc),
            unjudged: Vec::new(alloc),
            last: LastText::new(alloc),
        }
    }

    /// What the server says in response to a message, in order: the answer to a request, and what is wrong with a document
    /// that was opened, or was closed or lost. What is wrong with a document that changed is left to `settle`.
    ///
    /// `project` is the layout that the project of the message's document asks for. A message that can't be read makes the
    /// documents that it may be about lost: nothing is said about them until the client gives their whole text again.
    ///
    /// A request whose answer is out of memory is answered so. Otherwise the only error is out of memory. In both cases nothing
    /// has changed.
    pub fn step(
        &mut self,
        alloc: Global,
        message: ClientMessage,
        project: Wishes,
    ) -> Result<Vec<ServerMessage>, AllocError>
        ensures ok { IfOk result (λ told. Steps message project self.old self.new told.items) }
        ensures err { OnErr result (IsSame self.old self.new) }
    {
        match message {
            ClientMessage::Request { id, request } => self.respond(alloc, id, request, project),
            ClientMessage::Notification(notification) => self.take(alloc, notification),
            ClientMessage::Response => Ok(Vec::new(alloc)),
            ClientMessage::Unread(unread) => self.miss(alloc, unread),
        }
    }

    // Answers a request.
    fn respond(
        &mut self,
        alloc: Global,
        id: Id,
        request: Request,
        project: Wishes,
    ) -> Result<Vec<ServerMessage>, AllocError>
        ensures ok { IfOk result (λ told. Steps (ClientMessage.Request id request) project self.old self.new told.items) }
        ensures err { OnErr result (IsSame self.old self.new) }
    {
        match self.answer(alloc, &request, project) {
            Ok(answer) => {
                let told = tell(alloc, ServerMessage::Response { id, answer })?;
                self.turn(request);
                Ok(told)
            }
            Err(AllocError) => {
                let answer = Answer::Failure(Failure::OutOfMemory);
                tell(alloc, ServerMessage::Response { id, answer })
            }
        }
    }

    /// What is wrong with each document that changed since that was reported, in the order in which they changed. The only error
    /// is out of memory, and then nothing has changed.
    pub fn settle(&mut self, alloc: Global) -> Result<Vec<ServerMessage>, AllocError>
        ensures ok { IfOk result (λ told. Settles self.old self.new told.items) }
        ensures err { OnErr result (IsSame self.old self.new) }
    {
        let told = judge_all(
            alloc,
            &self.documents,
            &mut self.last,
            self.encoding,
            &self.unjudged,
        )?;
        self.unjudged.clear();
        Ok(told)
    }

    // The answer to a request.
    fn answer(
        &self,
        alloc: Global,
        request: &Request,
        project: Wishes,
    ) -> Result<Answer, AllocError>
        ensures { IfOk result (Gives self.now.phase request.now project self.now) }
    {
        match self.phase {
            Phase::Starting => Ok(match request {
                Request::Initialize(options) => Answer::Ready {
                    encoding: first_or_utf16(&options.encodings),
                    formats_on_save: options.formats_on_save,
                },
                _ => Answer::Failure(Failure::NotInitialized),
            }),
            Phase::Running => self.answer_running(alloc, request, project),
            Phase::ShutDown | Phase::Ended { .. } => Ok(Answer::Failure(Failure::InvalidRequest)),
        }
    }

    // The answer to a request between `initialize` and `shutdown`.
    fn answer_running(
        &self,
        alloc: Global,
        request: &Request,
        project: Wishes,
    ) -> Result<Answer, AllocError>
        ensures { IfOk result (Gives Phase.Running request.now project self.now) }
    {
        match request {
            Request::Initialize(_) => Ok(Answer::Failure(Failure::InvalidRequest)),
            Request::Shutdown => Ok(Answer::Nothing),
            Request::Formatting { uri } => self.format(alloc, uri.as_str(), project),
            Request::RangeFormatting { uri, range } => {
                self.format_range(alloc, uri.as_str(), *range, project)
            }
            Request::Fixes { uri, range } => self.fix(alloc, uri.as_str(), *range),
            Request::Completion { uri, position } => self.complete(alloc, uri.as_str(), *position),
            Request::Tokens { uri } => self.show_tokens(alloc, uri.as_str()),
            Request::Symbols { uri } => self.show_symbols(alloc, uri.as_str()),
            Request::Folds { uri } => self.show_folds(alloc, uri.as_str()),
            Request::Selections { uri, positions } => {
                self.show_selections(alloc, uri.as_str(), positions)
            }
            Request::Malformed => Ok(Answer::Failure(Failure::InvalidParams)),
            Request::Other => Ok(Answer::Failure(Failure::MethodNotFound)),
        }
    }

    // The answer to a request for the layout of a document.
    fn format(&self, alloc: Global, uri: &str, project: Wishes) -> Result<Answer, AllocError>
        ensures { IfOk result (OfDocument (document_of self.now uri.now) (LaysOut self.now.encoding (width_for self.now.wishes project) (indent_for self.now.wishes project))) }
    {
        match self.documents.get(uri) {
            Some(Document::Text { text, .. }) => {
                let config = config_for(self.wishes, project);
                format_whole(alloc, text.as_str(), &config, self.encoding)
            }
            Some(Document::Lost) => Ok(Answer::Failure(Failure::Lost)),
            None => Ok(Answer::Failure(Failure::NotOpen)),
        }
    }

    // The answer to a request for the layout of what a range touches.
    fn format_range(
        &self,
        alloc: Global,
        uri: &str,
        range: Range,
        project: Wishes,
    ) -> Result<Answer, AllocError>
        ensures { IfOk result (OfDocument (document_of self.now uri.now) (LaysOutPart self.now.encoding (width_for self.now.wishes project) (indent_for self.now.wishes project) range)) }
    {
        match self.documents.get(uri) {
            Some(Document::Text { text, .. }) => {
                let config = config_for(self.wishes, project);
                format_part(alloc, text.as_str(), range, &config, self.encoding)
            }
            Some(Document::Lost) => Ok(Answer::Failure(Failure::Lost)),
            None => Ok(Answer::Failure(Failure::NotOpen)),
        }
    }

    // The answer to a request for the fixes of what a range touches.
    fn fix(&self, alloc: Global, uri: &str, range: Range) -> Result<Answer, AllocError>
        ensures { IfOk result (OfDocument (document_of self.now uri.now) (GivesFixes self.now.encoding uri.now range)) }
    {
        match self.documents.get(uri) {
            Some(Document::Text { text, .. }) => {
                fixes_for(alloc, uri, text.as_str(), range, self.encoding)
            }
            Some(Document::Lost) => Ok(Answer::Failure(Failure::Lost)),
            None => Ok(Answer::Failure(Failure::NotOpen)),
        }
    }

    // The answer to a request for what could come at a position.
    fn complete(&self, alloc: Global, uri: &str, position: Position) -> Result<Answer, AllocError>
        ensures { IfOk result (OfDocument (document_of self.now uri.now) (Completes self.now.encoding position)) }
    {
        match self.documents.get(uri) {
            Some(Document::Text { text, .. }) => {
                complete_at(alloc, text.as_str(), position, self.encoding)
            }
            Some(Document::Lost) => Ok(Answer::Failure(Failure::Lost)),
            None => Ok(Answer::Failure(Failure::NotOpen)),
        }
    }

    // The answer to a request for the classes of tokens.
    fn show_tokens(&self, alloc: Global, uri: &str) -> Result<Answer, AllocError>
        ensures { IfOk result (OfDocument (document_of self.now uri.now) (ShowsTokens self.now.encoding)) }
    {
        match self.documents.get(uri) {
            Some(Document::Text { text, .. }) => tokens_of(alloc, text.as_str(), self.encoding),
            Some(Document::Lost) => Ok(Answer::Failure(Failure::Lost)),
            None => Ok(Answer::Failure(Failure::NotOpen)),
        }
    }

    // The answer to a request for the policies.
    fn show_symbols(&self, alloc: Global, uri: &str) -> Result<Answer, AllocError>
        ensures { IfOk result (OfDocument (document_of self.now uri.now) (ShowsSymbols self.now.encoding)) }
    {
        match self.documents.get(uri) {
            Some(Document::Text { text, .. }) => symbols_of(alloc, text.as_str(), self.encoding),
            Some(Document::Lost) => Ok(Answer::Failure(Failure::Lost)),
            None => Ok(Answer::Failure(Failure::NotOpen)),
        }
    }

    // The answer to a request for what can be folded.
    fn show_folds(&self, alloc: Global, uri: &str) -> Result<Answer, AllocError>
        ensures { IfOk result (OfDocument (document_of self.now uri.now) (ShowsFolds self.now.encoding)) }
    {
        match self.documents.get(uri) {
            Some(Document::Text { text, .. }) => folds_of(alloc, text.as_str(), self.encoding),
            Some(Document::Lost) => Ok(Answer::Failure(Failure::Lost)),
            None => Ok(Answer::Failure(Failure::NotOpen)),
        }
    }

    // The answer to a request for what is around positions.
    fn show_selections(
        &self,
        alloc: Global,
        uri: &str,
        positions: &[Position],
    ) -> Result<Answer, AllocError>
        ensures { IfOk result (OfDocument (document_of self.now uri.now) (ShowsSelections self.now.encoding positions.now)) }
    {
        match self.documents.get(uri) {
            Some(Document::Text { text, .. }) => {
                selections_of(alloc, text.as_str(), positions, self.encoding)
            }
            Some(Document::Lost) => Ok(Answer::Failure(Failure::Lost)),
            None => Ok(Answer::Failure(Failure::NotOpen)),
        }
    }

    // What a request changes, once it is answered.
    fn turn(&mut self, request: Request)
        ensures { Turns self.old.phase request self.old self.new }
    {
        match (self.phase, request) {
            (Phase::Starting, Request::Initialize(options)) => self.start(options),
            (Phase::Running, Request::Shutdown) => self.phase = Phase::ShutDown,
            _ => {}
        }
    }

    // Starts running.
    fn start(&mut self, options: ClientOptions)
        ensures { Starts options self.old self.new }
    {
        self.phase = Phase::Running;
        self.encoding = first_or_utf16(&options.encodings);
        self.wishes = options.wishes;
    }

    // Handles a notification.
    fn take(
        &mut self,
        alloc: Global,
        notification: Notification,
    ) -> Result<Vec<ServerMessage>, AllocError>
        ensures ok { IfOk result (λ told. Takes self.old.phase notification self.old self.new told.items) }
        ensures err { OnErr result (IsSame self.old self.new) }
    {
        match self.phase {
            Phase::Starting => self.take_exit(alloc, &notification, 1),
            Phase::Running => self.take_running(alloc, notification),
            Phase::ShutDown => self.take_exit(alloc, &notification, 0),
            Phase::Ended { .. } => Ok(Vec::new(alloc)),
        }
    }

    // Handles `exit`, and ignores anything else.
    fn take_exit(
        &mut self,
        alloc: Global,
        notification: &Notification,
        status: u8,
    ) -> Result<Vec<ServerMessage>, AllocError>
        ensures ok { IfOk result (λ told. TakesExit status notification.now self.old self.new told.items) }
        ensures err { OnErr result (IsSame self.old self.new) }
    {
        if let Notification::Exit = notification {
            self.phase = Phase::Ended { status };
        }
        Ok(Vec::new(alloc))
    }

    // Handles a notification between `initialize` and `shutdown`.
    fn take_running(
        &mut self,
        alloc: Global,
        notification: Notification,
    ) -> Result<Vec<ServerMessage>, AllocError>
        ensures ok { IfOk result (λ told. Takes Phase.Running notification self.old self.new told.items) }
        ensures err { OnErr result (IsSame self.old self.new) }
    {
        match notification {
            Notification::DidOpen { uri, version, text } => self.open(alloc, uri, version, text),
            Notification::DidChange {
                uri,
                version,
                changes,
            } => self.change(alloc, uri, version, changes),
            Notification::DidClose { uri } => self.close(alloc, uri),
            Notification::Exit => self.take_exit(alloc, &Notification::Exit, 1),
            Notification::Other => Ok(Vec::new(alloc)),
        }
    }

    // Gives a document a text, and reports what is wrong with it.
    fn open(
        &mut self,
        alloc: Global,
        uri: String,
        version: Option<i64>,
        text: String,
    ) -> Result<Vec<ServerMessage>, AllocError>
        ensures ok { IfOk result (λ told. Opens (string_bytes uri) version (string_bytes text) self.old self.new told.items) }
        ensures err { OnErr result (IsSame self.old self.new) }
    {
        let diagnoses = self.last.judge(alloc, text.as_str(), self.encoding)?;
        let message = diagnosed(alloc, uri.as_str(), version, diagnoses)?;
        let told = tell(alloc, message)?;
        self.set(uri, Document::Text { version, text })?;
        Ok(told)
    }

    // Puts a document into a state.
    fn set(&mut self, uri: String, document: Document) -> Result<(), AllocError>
        ensures ok { OnOk result (Sets (string_bytes uri) (Some (state_of document)) self.old self.new) }
        ensures unjudged { self.new.unjudged ≡ self.old.unjudged }
        ensures err { OnErr result (IsSame self.old self.new) }
    {
        put(&mut self.documents, uri, document)
    }

    // Applies the changes to a document, whose text is then to be judged. One that isn't open is ignored, and so is one that is
    // lost, unless a change gives the whole text.
    fn change(
        &mut self,
        alloc: Global,
        uri: String,
        version: Option<i64>,
        changes: Vec<Change>,
    ) -> Result<Vec<ServerMessage>, AllocError>
        ensures ok { IfOk result (λ told. Changes (string_bytes uri) version changes.items self.old self.new told.items) }
        ensures err { OnErr result (IsSame self.old self.new) }
    {
        match self.changed(alloc, uri.as_str(), changes)? {
            Some(text) => self.receive(alloc, uri, version, text),
            None => Ok(Vec::new(alloc)),
        }
    }

    // The text that changes give to a document, if they give one.
    fn changed(
        &self,
        alloc: Global,
        uri: &str,
        changes: Vec<Change>,
    ) -> Result<Option<String>, AllocError>
        ensures { IfOk result (λ text. GiveText self.now.encoding changes.items (document_of self.now uri.now) (option_map string_bytes text)) }
    {
        match self.documents.get(uri) {
            Some(Document::Text { text, .. }) => {
                let new = changed_text(alloc, text.as_str(), changes, self.encoding)?;
                Ok(Some(new))
            }
            Some(Document::Lost) => given_text(alloc, changes, self.encoding),
            None => Ok(None),
        }
    }

    // Gives a document a text that is to be judged.
    fn receive(
        &mut self,
        alloc: Global,
        uri: String,
        version: Option<i64>,
        text: String,
    ) -> Result<Vec<ServerMessage>, AllocError>
        ensures ok { IfOk result (λ told. Receives (string_bytes uri) version (string_bytes text) self.old self.new told.items) }
        ensures err { OnErr result (IsSame self.old self.new) }
    {
        if self.is_unjudged(uri.as_str()) {
            self.set(uri, Document::Text { version, text })?;
            return Ok(Vec::new(alloc));
        }
        // (nothing can fail after the text is set)
        self.unjudged.reserve(1)?;
        let name = String::from_str(alloc, uri.as_str())?;
        self.set(uri, Document::Text { version, text })?;
        self.unjudged.push(name)?;
        Ok(Vec::new(alloc))
    }

    // Whether a document is among those to be judged.
    fn is_unjudged(&self, uri: &str) -> bool
        ensures { IsTrue result ↔ IsUnjudged self.now uri.now }
    {
        for name in &self.unjudged {
            if name.as_str() == uri {
                return true;
            }
        }
        false
    }

    // Closes a document, and clears what was reported about it.
    fn close(&mut self, alloc: Global, uri: String) -> Result<Vec<ServerMessage>, AllocError>
        ensures ok { IfOk result (λ told. Closes (string_bytes uri) self.old self.new told.items) }
        ensures err { OnErr result (IsSame self.old self.new) }
    {
        let message = cleared(alloc, uri.as_str())?;
        let told = tell(alloc, message)?;
        self.documents.remove(uri.as_str());
        Ok(told)
    }

    // Handles a message that can't be read.
    fn miss(&mut self, alloc: Global, unread: Unread) -> Result<Vec<ServerMessage>, AllocError>
        ensures ok { IfOk result (λ told. Misses self.old.phase unread self.old self.new told.items) }
        ensures err { OnErr result (IsSame self.old self.new) }
    {
        match (self.phase, unread) {
            (Phase::Ended { .. }, _) => Ok(Vec::new(alloc)),
            (_, Unread::NoText { id }) => reject(alloc, id, Some(Fault::NoMessage)),
            (Phase::Running, Unread::TextOf { uri }) => self.lose(alloc, uri),
            (Phase::Running, Unread::AnyText { fault }) => self.lose_all(alloc, fault),
            (_, Unread::TextOf { .. }) => Ok(Vec::new(alloc)),
            (_, Unread::AnyText { fault }) => reject(alloc, None, fault),
        }
    }

    // A document is lost.
    fn lose(&mut self, alloc: Global, uri: String) -> Result<Vec<ServerMessage>, AllocError>
        ensures ok { IfOk result (λ told. Loses (string_bytes uri) self.old self.new told.items) }
        ensures err { OnErr result (IsSame self.old self.new) }
    {
        if self.is_lost(uri.as_str()) {
            return Ok(Vec::new(alloc));
        }
        let message = cleared(alloc, uri.as_str())?;
        let mut told = tell(alloc, message)?;
        let name = String::from_str(alloc, uri.as_str())?;
        told.push(ServerMessage::Notice { uri: Some(name) })?;
        self.set(uri, Document::Lost)?;
        Ok(told)
    }

    // Whether a document is lost.
    fn is_lost(&self, uri: &str) -> bool
        ensures { IsTrue result ↔ (document_of self.now uri.now ≡ Some lost) }
    {
        matches!(self.documents.get(uri), Some(Document::Lost))
    }

    // Every document is lost.
    fn lose_all(
        &mut self,
        alloc: Global,
        fault: Option<Fault>,
    ) -> Result<Vec<ServerMessage>, AllocError>
        ensures ok { IfOk result (λ told. LosesAll fault self.old self.new told.items) }
        ensures err { OnErr result (IsSame self.old self.new) }
    {
        let mut told = reject(alloc, None, fault)?;
        let mut cleared = clear_texts(alloc, &self.documents)?;
        if !cleared.is_empty() {
            cleared.push(ServerMessage::Notice { uri: None })?;
        }
        told.append(&mut cleared)?;
        self.documents = all_lost(alloc, &self.documents)?;
        Ok(told)
    }
}

// Reports what is wrong with each of these documents, in order.
fn judge_all(
    alloc: Global,
    documents: &Documents,
    last: &mut LastText,
    encoding: Encoding,
    uris: &[String],
) -> Result<Vec<ServerMessage>, AllocError>
    ensures { IfOk result (λ told. JudgesAll encoding documents.now (map string_bytes uris.now) told.items) }
{
    let mut told = Vec::new(alloc);
    for uri in uris {
        judge(alloc, documents, last, encoding, uri.as_str(), &mut told)?;
    }
    Ok(told)
}

// Reports what is wrong with a document, if it has a text.
fn judge(
    alloc: Global,
    documents: &Documents,
    last: &mut LastText,
    encoding: Encoding,
    uri: &str,
    told: &mut Vec<ServerMessage>,
) -> Result<(), AllocError>
    ensures { OnOk result (AddsJudgement encoding (state_in documents.now uri.now) uri.now told.old.items told.new.items) }
{
    match documents.get(uri) {
        Some(Document::Text { version, text }) => {
            let diagnoses = last.judge(alloc, text.as_str(), encoding)?;
            let message = diagnosed(alloc, uri, *version, diagnoses)?;
            told.push(message)?;
            Ok(())
        }
        Some(Document::Lost) | None => Ok(()),
    }
}

// The unit that a client's characters are counted in.
fn first_or_utf16(encodings: &[Encoding]) -> Encoding
    ensures { result ≡ first_or_utf16 encodings.now }
{
    match encodings.first() {
        Some(encoding) => *encoding,
        None => Encoding::Utf16,
    }
}

// The configuration for what the client and the project ask for.
fn config_for(client: Wishes, project: Wishes) -> Config
    ensures width { result.line_width ≡ width_for client project }
    ensures indent { result.indent_width ≡ indent_for client project }
{
    let line_width = client.line_width.or(project.line_width);
    let indent_width = client.indent_width.or(project.indent_width);
    Config {
        line_width: line_width.unwrap_or(LINE_WIDTH),
        indent_width: indent_width.unwrap_or(INDENT_WIDTH) as isize,
    }
}

// Only this message.
fn tell(alloc: Global, message: ServerMessage) -> Result<Vec<ServerMessage>, AllocError>
    ensures { IfOk result (λ told. told.items ≡ message ∷ []) }
{
    let mut told = Vec::new(alloc);
    told.push(message)?;
    Ok(told)
}

// Only the rejection of a message, or nothing without a fault.
fn reject(
    alloc: Global,
    id: Option<Id>,
    fault: Option<Fault>,
) -> Result<Vec<ServerMessage>, AllocError>
    ensures { IfOk result (λ told. told.items ≡ rejection_of id fault) }
{
    match fault {
        Some(fault) => tell(alloc, ServerMessage::Rejection { id, fault }),
        None => Ok(Vec::new(alloc)),
    }
}
