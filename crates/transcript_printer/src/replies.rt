//! Replies, and transcripts whole.
ghost use Rattle.std.specs.Prelude.{◌≡◌, ◌+◌, ◌++◌, ◌∷◌, [], IsTrue, OnOk, OnErr, codes, decimal};
ghost use Rattle.std.specs.List.{list_all};
ghost use Rattle.transcript_printer.specs.Appending.{Appends};
ghost use Rattle.transcript_printer.specs.Log.{numbered_text};
ghost use Rattle.transcript_printer.specs.Transcript.{answer_text, failure_text, reply_text, transcript_text, has_reply_words, has_transcript_words};

use crate::errors::{has_words, put_error};
use crate::log::{has_log_words, put_log};
use crate::records::put_message;
use crate::transcript::Transcript;
use crate::words::{put_bytes, put_count};
use dns_core::NoMemory;
use recursor_types::{RecursorError, Reply};
use std::alloc::Global;

fn put_reply_number(number: u64, out: &mut Vec<u8>) -> Result<(), NoMemory>
    ensures { Appends result out.old.items out.new.items (codes "reply " ++ decimal number ++ codes " ") }
{
    put_bytes(b"reply", out)?;
    put_count(number, out)?;
    put_bytes(b" ", out)
}

#[tactic(auto, unfolding(crate::specs::Errors::error_text, crate::specs::Transcript::failure_text))]
fn put_failure(
    alloc: Global,
    number: u64,
    error: &RecursorError,
    out: &mut Vec<u8>,
) -> Result<(), NoMemory>
    ensures { Appends result out.old.items out.new.items (failure_text number error.now) }
{
    put_reply_number(number, out)?;
    put_bytes(b"error ", out)?;
    put_error(alloc, error, out)
}

#[tactic(auto, unfolding(text_lines::specs::Texts::message_text, crate::specs::Transcript::answer_text, crate::specs::Transcript::reply_text))]
fn put_reply(alloc: Global, number: u64, reply: &Reply, out: &mut Vec<u8>) -> Result<(), NoMemory>
    ensures { Appends result out.old.items out.new.items (reply_text number reply.now) }
{
    match &reply.outcome {
        Ok(m) => {
            put_reply_number(number, out)?;
            put_message(alloc, m, out)
        }
        Err(error) => put_failure(alloc, number, error, out),
    }
}

fn put_replies(alloc: Global, replies: &[Reply], out: &mut Vec<u8>) -> Result<(), NoMemory>
    ensures { Appends result out.old.items out.new.items (numbered_text reply_text 1 replies.now) }
{
    for (i, reply) in replies.iter().enumerate() {
        put_reply(alloc, i as u64 + 1, reply, out)?;
    }
    Ok(())
}

#[tactic(auto, unfolding(crate::specs::Transcript::transcript_text))]
fn put_transcript(alloc: Global, t: &Transcript, out: &mut Vec<u8>) -> Result<(), NoMemory>
    ensures { Appends result out.old.items out.new.items (transcript_text t.now) }
{
    put_log(alloc, &t.log, out)?;
    put_replies(alloc, t.replies.items(), out)?;
    put_bytes(b"end\n", out)
}

fn has_reply_words(reply: &Reply) -> bool
    ensures { result ≡ has_reply_words reply.now }
{
    match &reply.outcome {
        Ok(_) => true,
        Err(error) => has_words(error),
    }
}

fn have_words(replies: &[Reply]) -> bool
    ensures { result ≡ list_all has_reply_words replies.now }
{
    replies.iter().all(|reply| has_reply_words(reply))
}

/// Whether each error in a transcript has its words.
pub fn has_transcript_words(t: &Transcript) -> bool
    ensures { result ≡ has_transcript_words t.now }
{
    has_log_words(&t.log) && have_words(t.replies.items())
}

/// Appends the whole text of a transcript, or leaves all as it was.
pub fn print_transcript(alloc: Global, t: &Transcript, out: &mut Vec<u8>) -> Result<(), NoMemory>
    requires { IsTrue (has_transcript_words t.now) }
    ensures ok { OnOk result (out.new.items ≡ out.old.items ++ transcript_text t.now) }
    ensures err { OnErr result (out.new.items ≡ out.old.items) }
{
    let before = out.len();
    match put_transcript(alloc, t, out) {
        Ok(()) => Ok(()),
        Err(error) => {
            out.truncate(before);
            Err(error)
        }
    }
}
