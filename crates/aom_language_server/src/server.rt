//! The server: what it knows, and what it answers.
ghost use Rattle.std.specs.Prelude.{◌≡◌, [], IfOk, OnOk, codes, option_map};
ghost use Rattle.std.specs.Str.{bytes_eq};
ghost use Rattle.serde_json.specs.Data.{null};
ghost use Rattle.serde_json.specs.View.{view};
ghost use Rattle.aom_language_answers.specs.Messages.{message_said, message_view};
ghost use Rattle.aom_language_answers.specs.Replies.{fault_data};
ghost use Rattle.aom_language_answers.specs.declared.replies.ReplyFault.TheVariants as faults;
ghost use Rattle.aom_language_answers.specs.Parameters.{changed_text};
ghost use Rattle.aom_language_server.specs.Exchanges.{AreSent, IsAnswered, IsChanged, IsClosed, IsNotified, IsOpened, IsOutcome, IsReply, IsRunningReply, IsUpdate, IsUpdateOf};
ghost use Rattle.aom_language_server.specs.Exchanges.{capabilities_data, first_reply, outcome_of, published_data, session_of};
ghost use Rattle.aom_language_server.specs.Queries.{opened_text, uri_said};
ghost use Rattle.aom_language_server.specs.Stages.{is_ending, stage_behind};
ghost use Rattle.aom_language_server.specs.declared.server.Stage.TheVariants.{Fresh, Running};

use crate::queries::{Query, found};
use crate::telling::diagnostics;
use aom_language_answers::{
    Documents, Incoming, ReplyFault, changed_text, notice, opened_text, read_message, refuse,
    reply, uri_of,
};
use serde_json::{Value, json};
use std::alloc::{AllocError, Global};

/// Where a session is.
#[derive(Clone, Copy, PartialEq, Eq, Debug)]
pub enum Stage {
    /// Before `initialize`.
    Fresh,
    Running,
    /// Behind `shutdown`.
    Ending,
}

/// What is sent for a message, and whether that ends the session.
#[derive(Drop)]
pub enum Answers {
    /// One message, or none.
    Sent(Option<Value>),
    /// The session ends: in order, behind `shutdown`, or early.
    Exit { in_order: bool },
}

/// A session: where it is, and the documents that are open.
#[derive(Drop)]
pub struct Server {
    alloc: Global,
    stage: Stage,
    documents: Documents,
}

impl Server {
    /// A session begins.
    pub fn new(alloc: Global) -> Server
        ensures stage { result.stage ≡ Fresh }
        ensures documents { result.documents ≡ [] }
    {
        Server {
            alloc,
            stage: Stage::Fresh,
            documents: Documents::new(alloc),
        }
    }

    /// Whether `shutdown` has come.
    pub fn is_ending(&self) -> bool
        ensures { result ≡ is_ending self.now.stage }
    {
        matches!(self.stage, Stage::Ending)
    }

    /// What is sent for a message. Where memory is wanted, it may be that nobody is told.
    pub fn answer(&mut self, message: &[u8]) -> Result<Answers, AllocError>
        ensures { IfOk result (λ answers. IsAnswered (session_of self.old) (message_said message.now) (outcome_of answers) (session_of self.new)) }
    {
        let incoming = read_message(self.alloc, message)?;
        self.hear(incoming)
    }

    /// What is sent for a message that was read.
    fn hear(&mut self, incoming: Incoming) -> Result<Answers, AllocError>
        ensures { IfOk result (λ answers. IsAnswered (session_of self.old) (message_view incoming) (outcome_of answers) (session_of self.new)) }
    {
        match incoming {
            Incoming::Request { id, method, params } => {
                let sent = self.request(&id, method.as_str(), &params)?;
                Ok(Answers::Sent(Some(sent)))
            }
            Incoming::Notification { method, params } => self.notified(method.as_str(), &params),
            Incoming::Response => Ok(Answers::Sent(None)),
            Incoming::Refused { id, fault } => {
                let sent = refuse(self.alloc, &id, fault)?;
                Ok(Answers::Sent(Some(sent)))
            }
        }
    }

    /// What is sent for a frame that brings no message.
    pub fn answer_no_message(&self) -> Result<Value, AllocError>
        ensures { IfOk result (λ v. view v ≡ fault_data null faults.Parse) }
    {
        refuse(self.alloc, &Value::Null, ReplyFault::Parse)
    }

    /// The reply to a request.
    fn request(&mut self, id: &Value, method: &str, params: &Value) -> Result<Value, AllocError>
        ensures reply { IfOk result (λ v. IsReply self.old.stage self.old.documents (view id.now) method.now (view params.now) (view v)) }
        ensures stage { OnOk result (self.new.stage ≡ stage_behind self.old.stage method.now) }
        ensures documents { self.new.documents ≡ self.old.documents }
    {
        match self.stage {
            Stage::Fresh => self.first_request(id, method),
            Stage::Running => self.running_request(id, method, params),
            Stage::Ending => refuse(self.alloc, id, ReplyFault::Request),
        }
    }

    /// The reply to a request before a session runs.
    fn first_request(&mut self, id: &Value, method: &str) -> Result<Value, AllocError>
        requires { self.old.stage ≡ Fresh }
        ensures reply { IfOk result (λ v. view v ≡ first_reply (view id.now) (bytes_eq method.now (codes "initialize"))) }
        ensures stage { OnOk result (self.new.stage ≡ stage_behind Fresh method.now) }
        ensures documents { self.new.documents ≡ self.old.documents }
    {
        if method != "initialize" {
            return refuse(self.alloc, id, ReplyFault::NotInitialized);
        }
        self.stage = Stage::Running;
        reply(self.alloc, id, capabilities(self.alloc)?)
    }

    /// The reply to a request in a session that runs.
    fn running_request(
        &mut self,
        id: &Value,
        method: &str,
        params: &Value,
    ) -> Result<Value, AllocError>
        requires { self.old.stage ≡ Running }
        ensures reply { IfOk result (λ v. IsRunningReply self.old.documents (view id.now) method.now (view params.now) (view v)) }
        ensures stage { OnOk result (self.new.stage ≡ stage_behind Running method.now) }
        ensures documents { self.new.documents ≡ self.old.documents }
    {
        if method == "initialize" {
            return refuse(self.alloc, id, ReplyFault::Request);
        }
        if method == "shutdown" {
            self.stage = Stage::Ending;
            return reply(self.alloc, id, Value::Null);
        }
        match Query::of(method) {
            Some(query) => self.query(id, query, params),
            None => refuse(self.alloc, id, ReplyFault::Method),
        }
    }

    /// The reply to what is asked of a document.
    fn query(&self, id: &Value, query: Query, params: &Value) -> Result<Value, AllocError>
        ensures { IfOk result (λ v. IsOutcome query (view params.now) self.now.documents (view id.now) (view v)) }
    {
        match found(self.alloc, query, params, &self.documents)? {
            Some(result) => reply(self.alloc, id, result),
            None => refuse(self.alloc, id, ReplyFault::Params),
        }
    }

    /// What is sent for a notification.
    fn notified(&mut self, method: &str, params: &Value) -> Result<Answers, AllocError>
        ensures outcome { IfOk result (λ answers.
            IsNotified self.old.stage method.now (view params.now) self.old.documents self.new.documents (outcome_of answers)) }
        ensures stage { self.new.stage ≡ self.old.stage }
    {
        if method == "exit" {
            let in_order = self.is_ending();
            return Ok(Answers::Exit { in_order });
        }
        let sent = self.update(method, params)?;
        Ok(Answers::Sent(sent))
    }

    /// What is sent where a client tells something of a document. Only a session that runs hears it.
    fn update(&mut self, method: &str, params: &Value) -> Result<Option<Value>, AllocError>
        ensures sent { IfOk result (λ sent.
            IsUpdate self.old.stage method.now (view params.now) self.old.documents self.new.documents (option_map view sent)) }
        ensures stage { self.new.stage ≡ self.old.stage }
    {
        match self.stage {
            Stage::Running => self.documents_told(method, params),
            _ => Ok(None),
        }
    }

    /// What is sent where a client tells something of a document.
    fn documents_told(&mut self, method: &str, params: &Value) -> Result<Option<Value>, AllocError>
        ensures sent { IfOk result (λ sent.
            IsUpdateOf method.now (view params.now) self.old.documents self.new.documents (uri_said (view params.now)) (option_map view sent)) }
        ensures stage { self.new.stage ≡ self.old.stage }
    {
        let Some(uri) = uri_of(params) else {
            return Ok(None);
        };
        if method == "textDocument/didOpen" {
            return self.opened(uri, params);
        }
        if method == "textDocument/didChange" {
            return self.changed(uri, params);
        }
        if method == "textDocument/didClose" {
            return self.closed(uri);
        }
        Ok(None)
    }

    fn opened(&mut self, uri: &str, params: &Value) -> Result<Option<Value>, AllocError>
        ensures sent { IfOk result (λ sent.
            IsOpened self.old.documents self.new.documents uri.now (opened_text (view params.now)) (option_map view sent)) }
        ensures stage { self.new.stage ≡ self.old.stage }
    {
        let Some(text) = opened_text(params) else {
            return Ok(None);
        };
        let is_open = self.documents.open(self.alloc, uri, text)?;
        faults_of(self.alloc, is_open, uri, text)
    }

    fn changed(&mut self, uri: &str, params: &Value) -> Result<Option<Value>, AllocError>
        ensures sent { IfOk result (λ sent.
            IsChanged self.old.documents self.new.documents uri.now (changed_text (view params.now)) (option_map view sent)) }
        ensures stage { self.new.stage ≡ self.old.stage }
    {
        let Some(text) = changed_text(params) else {
            return Ok(None);
        };
        let is_open = self.documents.change(self.alloc, uri, text)?;
        faults_of(self.alloc, is_open, uri, text)
    }

    /// A document that is closed has no faults any more.
    fn closed(&mut self, uri: &str) -> Result<Option<Value>, AllocError>
        ensures sent { IfOk result (λ sent. IsClosed self.old.documents self.new.documents uri.now (option_map view sent)) }
        ensures stage { self.new.stage ≡ self.old.stage }
    {
        if !self.documents.close(uri) {
            return Ok(None);
        }
        let none = Value::Array(Vec::new(self.alloc));
        Ok(Some(published(self.alloc, uri, none)?))
    }
}

/// The faults of a text, if it is that of an open document.
fn faults_of(
    alloc: Global,
    is_open: bool,
    uri: &str,
    text: &str,
) -> Result<Option<Value>, AllocError>
    ensures { IfOk result (λ sent. AreSent is_open uri.now text.now (option_map view sent)) }
{
    if !is_open {
        return Ok(None);
    }
    let faults = diagnostics(alloc, text)?;
    Ok(Some(published(alloc, uri, faults)?))
}

/// The faults of a document, as they are told to the client.
fn published(alloc: Global, uri: &str, faults: Value) -> Result<Value, AllocError>
    ensures { IfOk result (λ v. view v ≡ published_data uri.now (view faults)) }
{
    let params = json!(in alloc; {"uri": uri, "diagnostics": faults})?;
    notice(alloc, "textDocument/publishDiagnostics", params)
}

/// What the server can do.
fn capabilities(alloc: Global) -> Result<Value, AllocError>
    ensures { IfOk result (λ v. view v ≡ capabilities_data) }
{
    json!(in alloc; {
        "capabilities": {
            "positionEncoding": "utf-16",
            "textDocumentSync": {"openClose": true, "change": 1},
            "documentSymbolProvider": true,
            "definitionProvider": true,
            "hoverProvider": true,
            "renameProvider": {"prepareProvider": true}
        },
        "serverInfo": {"name": "aom"}
    })
}
