//! The fields of a trace: the heading, and the check of them all.
ghost use Rattle.std.specs.Prelude.{◌≡◌, ◌+◌, ◌≤◌, length, drop, false, Err, MatchOption, MatchResult};
ghost use Rattle.analog.specs.Answers.{first_no, asked};
ghost use Rattle.pmc330.specs.Raw.{board_of};
ghost use Rattle.pmc330_model.specs.Board.{new_board};
ghost use Rattle.trace.specs.Grammar.{length_of, is_call_tag, number_at};
ghost use Rattle.trace.specs.Fields.{range_of, is_heading, is_later_tag, is_later_field, later_fields, calls_of};
ghost use Rattle.trace.specs.Play.{field_questions};
ghost use Rattle.trace.specs.Stated.{byte_of};
ghost use Rattle.trace.specs.Machine.{StatesCall, SplitsField, walked, check_of};

use crate::calls::Call;
use analog::Refusal;
use pmc330::raw::RawBoard;

// What a field after the heading is.
#[derive(Clone, Copy, PartialEq, Eq)]
pub(crate) enum Tag {
    Read,
    Write,
    Input,
    Advance,
    Trigger,
    Reset,
    Look,
    Clear,
    Answer,
}

impl Tag {
    // The tag of a byte, if that may stand after the heading. An Option and no TryFrom: no error is told of the byte alone.
    #[tactic(auto, using(crate::proofs::FieldLaws::no_tag))]
    fn of(byte: u8) -> Option<Tag>
        ensures { MatchOption result (is_later_tag byte ≡ false) (λ tag. byte_of tag ≡ byte) }
    {
        match byte {
            0x01 => Some(Tag::Read),
            0x02 => Some(Tag::Write),
            0x03 => Some(Tag::Input),
            0x04 => Some(Tag::Advance),
            0x05 => Some(Tag::Trigger),
            0x06 => Some(Tag::Reset),
            0x07 => Some(Tag::Look),
            0x08 => Some(Tag::Clear),
            0x09 => Some(Tag::Answer),
            _ => None,
        }
    }

    // The length of the body.
    #[tactic(auto, unfolding(crate::specs::Grammar::length_of, crate::specs::Grammar::length_in))]
    fn length(self) -> usize
        ensures { result ≡ length_of (byte_of self) }
    {
        match self {
            Tag::Trigger | Tag::Reset => 0,
            Tag::Look | Tag::Clear => 1,
            Tag::Read => 3,
            Tag::Advance => 4,
            Tag::Input | Tag::Answer => 5,
            Tag::Write => 7,
        }
    }

    #[tactic(auto, unfolding(crate::specs::Grammar::is_call_tag, crate::specs::Grammar::is_kind_in))]
    fn is_call(self) -> bool
        ensures { result ≡ is_call_tag (byte_of self) }
    {
        self != Tag::Answer
    }
}

// A number in a body, of at most four bytes, low byte first.
pub(crate) fn number<const N: usize>(bytes: &[u8], at: usize) -> u32
    requires short { N ≤ 4 }
    requires inside { at + N ≤ length bytes.now }
    ensures { result ≡ number_at at N bytes.now }
{
    let mut low = [0; 4];
    low[..N].copy_from_slice(&bytes[at..at + N]);
    u32::from_le_bytes(low)
}

// A field after the heading, with its body as a part of the trace.
#[derive(Clone, Copy)]
pub(crate) struct Field<'a> {
    tag: Tag,
    pub(crate) body: &'a [u8],
    ghost whole: { length body.now ≡ length_of (byte_of tag) },
}

impl Field<'_> {
    // The call that it states; none of a recorded answer. Inlined into both loops, as is what else they do at each field: to enter
    // such a function takes longer than to run it.
    #[tactic(auto, unfolding(crate::specs::Grammar::length_of, crate::specs::Grammar::length_in, crate::specs::Grammar::is_call_tag, crate::specs::Grammar::is_kind_in, crate::specs::Grammar::call_of), using(crate::proofs::CallLaws::signed_is))]
    #[inline(always)]
    pub(crate) fn call(self) -> Option<Call>
        ensures { MatchOption result (is_call_tag (byte_of self.entry.tag) ≡ false) (λ call. StatesCall (byte_of self.entry.tag) self.entry.body.now call) }
    {
        let body = self.body;
        match self.tag {
            Tag::Read => Some(Call::Read {
                width: number::<1>(body, 0),
                offset: number::<2>(body, 1),
            }),
            Tag::Write => Some(Call::Write {
                width: number::<1>(body, 0),
                offset: number::<2>(body, 1),
                value: number::<4>(body, 3),
            }),
            Tag::Input => Some(Call::Input {
                channel: number::<1>(body, 0),
                microvolts: number::<4>(body, 1).cast_signed(),
            }),
            Tag::Advance => Some(Call::Advance {
                ticks: number::<4>(body, 0),
            }),
            Tag::Trigger => Some(Call::Trigger),
            Tag::Reset => Some(Call::Reset),
            Tag::Look => Some(Call::Look {
                slot: number::<1>(body, 0),
            }),
            Tag::Clear => Some(Call::Clear {
                slot: number::<1>(body, 0),
            }),
            Tag::Answer => None,
        }
    }
}

// The first field of some bytes and the bytes after it, if they begin with a field that may stand after the heading: whole, with
// its tag's length. It is cut off by the length that it states, since the tag's is found by a jump.
#[inline(always)]
fn split(bytes: &[u8]) -> Option<(Field<'_>, &[u8])>
    ensures { MatchOption result (is_later_field bytes.now ≡ false) (λ parts. SplitsField bytes.now (byte_of parts.0.tag) parts.0.body.now parts.1.now) }
{
    let (head, rest) = bytes.split_at_checked(3)?;
    let tag = Tag::of(head[0])?;
    let size = number::<2>(head, 1) as usize;
    if size != tag.length() || rest.len() < size {
        return None;
    }
    // The bytes after the body are taken from `rest`: with `&bytes[3 + size..]` the walk would wait longer for the next field
    // (tried: a clear takes 1.2 of the time).
    let field = Field {
        tag,
        body: &bytes[3..3 + size],
    };
    Some((field, &rest[size..]))
}

// The fields after the heading, from the first of the bytes that are left on, as far as they are whole.
#[derive(Drop)]
pub(crate) struct LaterFields<'a> {
    rest: &'a [u8],
}

impl<'a> LaterFields<'a> {
    pub(crate) fn of(trace: &'a [u8]) -> LaterFields<'a>
        requires { 8 ≤ length trace.now }
        ensures { result.rest.now ≡ drop 8 trace.now }
    {
        LaterFields { rest: &trace[8..] }
    }
}

impl<'a> Iterator for LaterFields<'a> {
    ghost use Rattle.std.specs.Iterator.{at_most};
    ghost use Rattle.trace.specs.Walks.{GivesField};

    type Item = Field<'a>;

    ghost next_gives = { GivesField };

    ghost remaining = { λ fields. at_most (length fields.rest.now) };

    #[inline(always)]
    fn next(&mut self) -> Option<Field<'a>> {
        let (field, after) = split(self.rest)?;
        self.rest = after;
        Some(field)
    }
}

// Whether the trace begins with the heading.
fn is_heading(trace: &[u8]) -> bool
    ensures { result ≡ is_heading trace.now }
{
    8 <= trace.len() && trace.starts_with(b"\x00\x05\x00A330") && trace[7] <= 3
}

// The check of the later fields: no board is asked. 19 comes before 26: a field further on than a stray answer may be damaged.
// No `for`: tried, and of an iterator that is lent to one nothing is known after it.
fn check_later(trace: &[u8]) -> Result<usize, Refusal>
    requires { 8 ≤ length trace.now }
    ensures { result ≡ walked 0 false false (later_fields trace.now) }
{
    let mut fields = LaterFields::of(trace);
    let mut after_call = false;
    let mut strays = false;
    let mut calls: usize = 0;
    while let Some(field) = fields.next() {
        let is_call = field.tag.is_call();
        strays = strays || !is_call && !after_call;
        calls += usize::from(is_call);
        after_call = is_call;
    }
    if !fields.rest.is_empty() {
        return Err(Refusal::BadField);
    }
    if strays {
        return Err(Refusal::StrayAnswer);
    }
    Ok(calls)
}

// The check of a trace, questions 18, 19 and 26: how many calls it has.
#[tactic(auto, using(crate::proofs::CheckLaws::check_long, crate::proofs::CheckLaws::check_heading, crate::proofs::CheckLaws::check_walked, crate::proofs::CheckLaws::heading_length))]
fn check(trace: &[u8]) -> Result<usize, Refusal>
    ensures { result ≡ check_of trace.now }
{
    if crate::LONGEST < trace.len() || !is_heading(trace) {
        return Err(Refusal::BadHeading);
    }
    check_later(trace)
}

// A trace that passed the checks of its fields; only a short answer buffer can still refuse it.
#[derive(Clone, Copy)]
pub(crate) struct Checked<'a> {
    trace: &'a [u8],
    pub(crate) calls: usize,
    ghost passed: { first_no (field_questions trace.now) ≡ 0 },
    ghost counted: { calls ≡ length (calls_of trace.now) },
}

impl<'a> TryFrom<&'a [u8]> for Checked<'a> {
    ghost use Rattle.std.specs.Prelude.{◌≡◌, Err, MatchResult};
    ghost use Rattle.analog.specs.Answers.{asked};
    ghost use Rattle.trace.specs.Play.{field_questions};

    type Error = Refusal;

    ghost try_from_gives = { λ trace result. MatchResult result (λ checked. checked.trace.now ≡ trace.now) (λ refusal. asked (field_questions trace.now) ≡ Err refusal) };

    fn try_from(trace: &'a [u8]) -> Result<Checked<'a>, Refusal> {
        let calls = check(trace)?;
        Ok(Checked { trace, calls })
    }
}

impl<'a> Checked<'a> {
    // A board becomes the one that its calls begin on. In place, since the board would else be copied, by C's `memcpy`.
    pub(crate) fn open(self, board: &mut RawBoard)
        ensures { board_of board.new ≡ new_board (range_of self.entry.trace.now) }
    {
        // the heading has one of a board's ranges
        let _ = board.open(u32::from(self.trace[7]));
    }

    pub(crate) fn fields(self) -> LaterFields<'a>
        ensures { result.rest.now ≡ drop 8 self.entry.trace.now }
    {
        LaterFields::of(self.trace)
    }
}
