//! The answers to statements, one after another, while the input comes.

ghost use Rattle.std.specs.Prelude.{◌≡◌, ◌+◌, ◌≤◌, ◌++◌, IfSome, false, length, slice_range};
ghost use Rattle.script_lex.specs.Scripts.{statement_at};
ghost use Rattle.std.specs.Option.{option_copied};
ghost use Rattle.cqa_io.specs.Causes.{Rose};
ghost use Rattle.reply_text.specs.Texts.{is_refusal};
ghost use Rattle.command_shell.specs.Parts.{CloseRow, AnswerRow, ProgressRow};
ghost use Rattle.cqa_model.specs.declared.limits.TheConstants.{LONGEST_INPUT};

use crate::Session;
use crate::ending::Stop;
use crate::taker::Taker;
use refusals::Refusal;
use reply_text::Reply;
use script_lex::{Cut, Cutter, Span};
use std::alloc::Global;

/// Whether a reply is a refusal.
pub fn is_refused(reply: &Reply) -> bool
    ensures { result ≡ is_refusal reply.now }
{
    match reply {
        Reply::Refused(_) => true,
        _ => false,
    }
}

/// Answers one statement, hands the reply to the taker, and says whether it is a refusal.
fn answer<T: Taker>(
    alloc: Global,
    session: &mut Session,
    taker: &mut T,
    text: &[u8],
    block: Option<&[u8]>,
) -> Result<bool, Stop>
    requires { length text.now ≤ LONGEST_INPUT }
    ensures row { AnswerRow T.took taker.old taker.new result (Rose (T.faults taker.old) (T.faults taker.new)) (T.written taker.old) (T.written taker.new) session.old (text.now, option_copied block.entry) session.new }
    ensures later { T.faults taker.old ≤ T.faults taker.new }
{
    let reply = session.run(alloc, text, block)?;
    let took = taker.take(alloc, text, &reply);
    drop(reply);
    took
}

/// The bytes of a span.
fn part(bytes: &[u8], span: Span) -> &[u8]
    requires order { span.from ≤ span.to }
    requires within { span.to ≤ length bytes.now }
    ensures { result.now ≡ slice_range bytes.now span.from span.to }
{
    &bytes[span.from..span.to]
}

/// Answers the statement at its places in some bytes.
fn answer_at<T: Taker>(
    alloc: Global,
    session: &mut Session,
    taker: &mut T,
    bytes: &[u8],
    text: Span,
    block: Option<Span>,
) -> Result<bool, Stop>
    requires short { length bytes.now ≤ LONGEST_INPUT }
    requires text { (text.from ≤ text.to) × (text.to ≤ length bytes.now) }
    requires block { IfSome block (λ b. (b.from ≤ b.to) × (b.to ≤ length bytes.now)) }
    ensures row { AnswerRow T.took taker.old taker.new result (Rose (T.faults taker.old) (T.faults taker.new)) (T.written taker.old) (T.written taker.new) session.old (statement_at bytes.now text block) session.new }
    ensures later { T.faults taker.old ≤ T.faults taker.new }
{
    match block {
        None => answer(alloc, session, taker, part(bytes, text), None),
        Some(span) => answer(
            alloc,
            session,
            taker,
            part(bytes, text),
            Some(part(bytes, span)),
        ),
    }
}

/// Refuses what is left at the end of an input; where the input hasn't ended, nothing is replied.
fn close<T: Taker>(alloc: Global, taker: &mut T, ended: bool, refused: bool) -> Result<bool, Stop>
    ensures row { CloseRow T.took taker.old taker.new result (Rose (T.faults taker.old) (T.faults taker.new)) (T.written taker.old) (T.written taker.new) ended refused }
    ensures later { T.faults taker.old ≤ T.faults taker.new }
{
    if !ended {
        return Ok(refused);
    }
    taker.take(alloc, b"", &Reply::Refused(Refusal::Unfinished))
}

/// Answers the complete statements of the bytes held and takes them away, and says whether one was refused.
/// Where the input has ended with these bytes, what is left and isn't blank is refused.
pub fn answer_held<T: Taker>(
    alloc: Global,
    session: &mut Session,
    taker: &mut T,
    held: &mut Cutter,
    ended: bool,
) -> Result<bool, Stop>
    requires { length held.old ≤ LONGEST_INPUT }
    ensures row { ProgressRow T.took taker.old taker.new result (Rose (T.faults taker.old) (T.faults taker.new)) (T.written taker.old) (T.written taker.new) session.old held.old ended session.new held.new }
    ensures fewer { length held.new ≤ length held.old }
    ensures later { T.faults taker.old ≤ T.faults taker.new }
{
    let mut refused = false;
    loop {
        match held.look(ended) {
            Cut::Statement { text, block, rest } => {
                refused |= answer_at(alloc, session, taker, held.bytes(), text, block)?;
                held.skip(rest);
            }
            Cut::Blank => return Ok(refused),
            Cut::Part => return close(alloc, taker, ended, refused),
        }
    }
}

/// Answers the statements that a piece of the input completes, and says whether one was refused.
pub fn answer_piece<T: Taker>(
    alloc: Global,
    session: &mut Session,
    taker: &mut T,
    held: &mut Cutter,
    piece: &[u8],
) -> Result<bool, Stop>
    requires { length held.old + length piece.now ≤ LONGEST_INPUT }
    ensures row { ProgressRow T.took taker.old taker.new result (Rose (T.faults taker.old) (T.faults taker.new)) (T.written taker.old) (T.written taker.new) session.old (held.old ++ piece.now) false session.new held.new }
    ensures fewer { length held.new ≤ length held.old + length piece.now }
    ensures later { T.faults taker.old ≤ T.faults taker.new }
{
    held.feed(piece)?;
    answer_held(alloc, session, taker, held, false)
}
