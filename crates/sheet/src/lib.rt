// The run sheet: lines of calls in, lines of answers out. Their bytes are defined in specs/.
#![tactic(auto)]

ghost use Rattle.std.specs.Prelude.{◌≡◌, suc, ◌+◌, ◌≤◌, ◌⊎◌, [], ◌∷◌, ◌++◌, length, take, drop, MatchOption, unwrap_or};
ghost use Rattle.std.proofs.Math.Option.{some, none};
ghost use Rattle.model.specs.Answers.{values_of};
ghost use Rattle.decimal.specs.Digits.{number_below};
ghost use Rattle.decimal.specs.Fields.{field, after_field};
ghost use Rattle.decimal.specs.Written.{written};
ghost use Rattle.lines.specs.Lines.{comma};
ghost use Rattle.sheet.specs.declared.Command.TheVariants as C;
ghost use Rattle.sheet.specs.Words.{word_of, header};
ghost use Rattle.sheet.specs.Lines.{verb_in, of_fields, line_call};
ghost use Rattle.sheet.specs.Commands.{command_of};
ghost use Rattle.sheet.specs.Sheets.{printed};
ghost use Rattle.sheet.specs.Parts.{verb_of, only_if};

use decimal::{field_end, number_in, write_bytes, write_number};
use lines::same_bytes;
use model::Answer;

// The bytes of a line, at most.
const LINE: usize = 64;

// The greatest transaction and key, as numbers.
const TXN_MAX: u64 = u32::MAX as u64;

const KEY_MAX: u64 = u8::MAX as u64;

// What a line asks, or a host's request: a sweep is only a request's.
#[derive(Clone, Copy)]
pub enum Command {
    Start(u32),
    Put(u32, u8, u64),
    Get(u32, u8),
    Commit(u32, u64),
    Step(u32),
    Abort(u32),
    Collect(u8),
    Cut,
    Malformed,
    Sweep(u64),
}

// A line's first field.
#[derive(Clone, Copy)]
pub enum Word {
    Start,
    Put,
    Get,
    Commit,
    Step,
    Abort,
    Collect,
    Cut,
    Unknown,
}

// The values a, b, c of an answer.
#[derive(Clone, Copy)]
pub struct Values {
    pub a: u64,
    pub b: u64,
    pub c: u64,
}

impl Values {
    fn new(a: u64, b: u64, c: u64) -> Values
        ensures { (result.a ≡ a) × (result.b ≡ b) × (result.c ≡ c) }
    {
        Values { a, b, c }
    }
}

// The verb that a line's first field names.
#[tactic(auto, unfolding(crate::specs::Parts::verb_of, crate::specs::Lines::verb_in, crate::specs::Words::verb_bytes))]
fn word_in(s: &[u8]) -> Word
    ensures { verb_of result ≡ verb_in s.now }
{
    if same_bytes(s, b"start") {
        Word::Start
    } else if same_bytes(s, b"put") {
        Word::Put
    } else if same_bytes(s, b"get") {
        Word::Get
    } else if same_bytes(s, b"commit") {
        Word::Commit
    } else if same_bytes(s, b"step") {
        Word::Step
    } else if same_bytes(s, b"abort") {
        Word::Abort
    } else if same_bytes(s, b"collect") {
        Word::Collect
    } else if same_bytes(s, b"cut") {
        Word::Cut
    } else {
        Word::Unknown
    }
}

// A command whose unused fields are 0.
#[tactic(auto, unfolding(crate::specs::Parts::only_if))]
fn only_if(unused: bool, c: Command) -> Command
    ensures { result ≡ only_if unused c }
{
    if unused { c } else { Command::Malformed }
}

// The fields of a line put together.
#[tactic(auto, unfolding(crate::specs::Parts::verb_of, crate::specs::Parts::only_if, crate::specs::Lines::of_fields, crate::specs::Lines::call_in, crate::specs::Lines::if_unused, crate::specs::Commands::command_of,))]
pub fn command_for(word: Word, t: u32, k: u8, n: u64) -> Command
    ensures { result ≡ command_of (of_fields (verb_of word) (some t) (some k) (some n)) }
{
    match word {
        Word::Start => only_if(k == 0 && n == 0, Command::Start(t)),
        Word::Put => Command::Put(t, k, n),
        Word::Get => only_if(n == 0, Command::Get(t, k)),
        Word::Commit => only_if(k == 0, Command::Commit(t, n)),
        Word::Step => only_if(k == 0 && n == 0, Command::Step(t)),
        Word::Abort => only_if(k == 0 && n == 0, Command::Abort(t)),
        Word::Collect => only_if(t == 0 && n == 0, Command::Collect(k)),
        Word::Cut => only_if(t == 0 && k == 0 && n == 0, Command::Cut),
        Word::Unknown => Command::Malformed,
    }
}

// A field with a comma after it: its number, if that is at most max, and what is after the comma.
fn field_before_comma(s: &[u8], max: u64) -> Option<(u64, &[u8])>
    requires { 9 ≤ max }
    ensures { MatchOption result ((number_below (suc max) (field comma s.now) ≡ none) ⊎ (after_field comma s.now ≡ none)) (λ p. (number_below (suc max) (field comma s.now) ≡ some p.0) × (after_field comma s.now ≡ some p.1.now)) }
{
    let (n, at) = number_in(s, b',', max)?;
    let rest = s.get(at + 1..)?;
    Some((n, rest))
}

// The command of a line that is no longer and no otherwise formed than it may be.
fn command_in(line: &[u8]) -> Option<Command>
    ensures { unwrap_or result C.Malformed ≡ command_of (line_call line.now) }
{
    if line.len() > LINE {
        return None;
    }
    let at = field_end(line, b',');
    let word = word_in(&line[..at]);
    let rest = line.get(at + 1..)?;
    let (t, rest) = field_before_comma(rest, TXN_MAX)?;
    let (k, rest) = field_before_comma(rest, KEY_MAX)?;
    let (n, end) = number_in(rest, b',', u64::MAX)?;
    if end < rest.len() {
        return None;
    }
    Some(command_for(word, t as u32, k as u8, n))
}

// What a line asks, whatever its bytes are.
pub fn parse_line(line: &[u8]) -> Command
    ensures { result ≡ command_of (line_call line.now) }
{
    command_in(line).unwrap_or(Command::Malformed)
}

// An answer's word.
#[tactic(auto, unfolding(crate::specs::Words::word_of))]
fn answer_word(answer: Answer) -> &'static [u8]
    ensures { (result.now ≡ word_of answer) × (length result.now ≤ 9) }
{
    match answer {
        Answer::Started => b"started",
        Answer::Kept => b"kept",
        Answer::Own(_) => b"own",
        Answer::Version(_, _) => b"version",
        Answer::None => b"none",
        Answer::Nofit(_) => b"nofit",
        Answer::Closing(_) => b"closing",
        Answer::Empty => b"empty",
        Answer::Done(_) => b"done",
        Answer::Stored(_) => b"stored",
        Answer::Slipped(_) => b"slipped",
        Answer::Dropped => b"dropped",
        Answer::Collected(_) => b"collected",
        Answer::Found(_) => b"found",
        Answer::Refused(_, _) => b"refused",
        Answer::Swept(_) => b"swept",
        Answer::Moved(_) => b"moved",
    }
}

// An answer's word and a comma, from a place on; the place after both.
fn write_word(out: &mut [u8], start: usize, answer: Answer) -> usize
    requires { start + 10 ≤ length out.old }
    ensures { (result ≡ start + length (word_of answer) + 1) × (result ≤ start + 10) × (out.new ≡ written out.old start (word_of answer ++ (44 ∷ []))) }
{
    let end = write_bytes(out, start, answer_word(answer));
    out[end] = b',';
    end + 1
}

// The values of an answer.
#[tactic(auto, unfolding(model::specs::Answers::values_of))]
pub fn values_in(answer: Answer) -> Values
    ensures { (result.a ≡ (values_of answer).a) × (result.b ≡ (values_of answer).b) × (result.c ≡ (values_of answer).c) }
{
    match answer {
        Answer::Own(v) => Values::new(v, 0, 0),
        Answer::Version(v, i) => Values::new(v, i.clock, u64::from(i.txn)),
        Answer::Done(i) | Answer::Collected(i) => Values::new(0, i.clock, u64::from(i.txn)),
        Answer::Refused(n, d) => Values::new(u64::from(n), u64::from(d), 0),
        Answer::Nofit(n)
        | Answer::Closing(n)
        | Answer::Stored(n)
        | Answer::Slipped(n)
        | Answer::Found(n)
        | Answer::Swept(n)
        | Answer::Moved(n) => Values::new(u64::from(n), 0, 0),
        Answer::Started | Answer::Kept | Answer::None | Answer::Empty | Answer::Dropped =>
            Values::new(0, 0, 0),
    }
}

// The output's first line.
pub fn print_header(out: &mut [u8]) -> usize
    requires { 18 ≤ length out.old }
    ensures { (result ≡ 18) × (take result out.new ≡ header) × (drop result out.new ≡ drop result out.old) × (length out.new ≡ length out.old) }
{
    write_bytes(out, 0, b"line,answer,a,b,c\n")
}

// The output's line of an answer: its number, its word and its values.
pub fn print_line(out: &mut [u8], number: u64, answer: Answer) -> usize
    requires { 96 ≤ length out.old }
    ensures { (result ≤ 96) × (take result out.new ≡ printed number answer) × (drop result out.new ≡ drop result out.old) × (length out.new ≡ length out.old) }
{
    let v = values_in(answer);
    let word = write_number(out, 0, number, b',');
    let a = write_word(out, word, answer);
    let b = write_number(out, a, v.a, b',');
    let c = write_number(out, b, v.b, b',');
    write_number(out, c, v.c, b'\n')
}
