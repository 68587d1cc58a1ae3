//! The generator of transcripts: one client's logins, some of them repeated, and their answers.

ghost use Rattle.std.specs.Prelude.{◌≡◌, ◌+◌, ◌≤◌, ◌<◌, ◌^◌, [], ◌∷◌, ◌++◌, Err, IfOk, IfSome, IfNone, OnOk, OnErr};
ghost use Rattle.wire_core.specs.Counts.{Counts};
ghost use Rattle.wire_core.specs.Sink.{Appends, AppendsPrefix};
ghost use Rattle.generated_logins.specs.Generator.{generated_lines, generated_text};
ghost use Rattle.generated_logins.specs.declared.generate_fault.GenerateFault.TheVariants.{Write};

use crate::generate_fault::GenerateFault;
use crate::login::{answer_line, drain_line, has_bit, next_draw, request_line};
use std::alloc::Global;
use std::marker::Model;
use wire_core::{NoMemory, Octets, Put, Sink};

/// The lines before the first login.
const AGENT_LINE: &str = "agent agent.example example example 192.0.2.1 0 1000 64 64 30000";

const CLIENT_LINE: &str = "client gen 10.0.0.1 736563726574 gen.example example plain refuse -";

const READY_LINE: &str = "0 ready";

/// What a line says.
#[derive(Clone, Copy)]
enum LoginStage {
    Agent,
    Client,
    Ready,
    Request,
    /// The request once more, before its answer.
    Repeat,
    Answer,
    /// The request once more, after its answer.
    LateRepeat,
    Drain,
}

/// Where a line stands: what it says, the number of its login, or of the first one where it comes before that, how
/// many logins come after that one, and the number that is drawn for it.
#[derive(Clone, Copy)]
struct Position {
    stage: LoginStage,
    number: u32,
    left: u32,
    drawn: u32,
    ghost fits: { number + left < 2 ^ 32 },
}

/// A line that says this.
fn copied(alloc: Global, text: &str) -> Result<Vec<u8>, NoMemory>
    ensures { IfOk result (λ line. line.items ≡ text.now) }
{
    Ok(Vec::from_slice(alloc, text.as_bytes())?)
}

impl Position {
    ghost use Rattle.generated_logins.specs.Generator.{next_draw as drawn_after, request_line as line_of_request, answer_line as line_of_answer};
    ghost use Rattle.generated_logins.specs.Generating.{line_at, lines_at, lines_from, lines_left, logins_from};
    ghost use Rattle.generated_logins.specs.declared.generator.LoginStage.TheVariants.{Request, Answer};

    /// The line that stands here.
    fn line(self, alloc: Global) -> Result<Vec<u8>, NoMemory>
        ensures { IfOk result (λ line. line.items ≡ line_at self) }
    {
        match self.stage {
            LoginStage::Agent => copied(alloc, AGENT_LINE),
            LoginStage::Client => copied(alloc, CLIENT_LINE),
            LoginStage::Ready => copied(alloc, READY_LINE),
            LoginStage::Request | LoginStage::Repeat | LoginStage::LateRepeat => {
                request_line(alloc, self.number)
            }
            LoginStage::Answer => answer_line(alloc, self.number, self.drawn),
            LoginStage::Drain => drain_line(alloc, self.number),
        }
    }

    /// Where this is said of the same login.
    fn at(self, stage: LoginStage) -> Option<Position>
        ensures { lines_left result ≡ lines_at stage self.number self.left self.drawn }
    {
        Some(Position {
            stage,
            number: self.number,
            left: self.left,
            drawn: self.drawn,
        })
    }

    /// Where the line after the request stands.
    fn after_request(self) -> Option<Position>
        ensures { lines_at Request self.number self.left self.drawn
            ≡ line_of_request self.number ∷ lines_left result }
    {
        if has_bit(self.drawn, 16) {
            self.at(LoginStage::Repeat)
        } else {
            self.at(LoginStage::Answer)
        }
    }

    /// Where the line after the answer stands.
    fn after_answer(self) -> Option<Position>
        ensures { lines_at Answer self.number self.left self.drawn
            ≡ line_of_answer self.number self.drawn ∷ lines_left result }
    {
        if has_bit(self.drawn, 18) {
            self.at(LoginStage::LateRepeat)
        } else {
            self.at(LoginStage::Drain)
        }
    }

    /// Where the login after this one begins, None where this is the last one.
    fn next_login(self) -> Option<Position>
        ensures { lines_left result
            ≡ logins_from self.left (self.number + 1) (drawn_after self.drawn) }
    {
        if self.left == 0 {
            return None;
        }
        Some(Position {
            stage: LoginStage::Request,
            number: self.number + 1,
            left: self.left - 1,
            drawn: next_draw(self.drawn),
        })
    }

    /// Where the line after this one stands, None where this is the last one.
    fn following(self) -> Option<Position>
        ensures { lines_from self ≡ line_at self ∷ lines_left result }
    {
        match self.stage {
            LoginStage::Agent => self.at(LoginStage::Client),
            LoginStage::Client => self.at(LoginStage::Ready),
            LoginStage::Ready => self.at(LoginStage::Request),
            LoginStage::Request => self.after_request(),
            LoginStage::Repeat => self.at(LoginStage::Answer),
            LoginStage::Answer => self.after_answer(),
            LoginStage::LateRepeat => self.at(LoginStage::Drain),
            LoginStage::Drain => self.next_login(),
        }
    }
}

/// The lines of a transcript, made as they are asked for: a client's logins, one every 20 milliseconds, some of whose
/// requests come again before the answer or after it. Contracts see the lines that are still to come.
#[derive(Drop)]
pub struct Generator {
    alloc: Global,
    position: Option<Position>,
}

impl Model for Generator {
    ghost use Rattle.std.specs.Prelude.{List, ℕ};

    ghost Value = { List (List ℕ) };

    ghost use Rattle.generated_logins.specs.Generating.{lines_left};

    ghost view = { λ g. lines_left g.position };
}

impl Generator {
    /// The transcript of so many logins. The seed decides which requests come again, and which answers refuse.
    pub fn new(alloc: Global, count: u32, seed: u32) -> Generator
        requires some { 1 ≤ count }
        requires most { count ≤ 1000000 }
        ensures { result ≡ generated_lines count seed }
    {
        let first = Position {
            stage: LoginStage::Agent,
            number: 0,
            left: count - 1,
            drawn: next_draw(seed),
        };
        Generator {
            alloc,
            position: Some(first),
        }
    }

    /// The next line as a `Vec`, without the octet 0a that ends it.
    fn next_text(&mut self) -> Result<Option<Vec<u8>>, NoMemory>
        ensures line { IfOk result
            (λ line. IfSome line (λ text. self.old ≡ text.items ∷ self.new)) }
        ensures end { IfOk result (λ line. IfNone line ((self.old ≡ []) × (self.new ≡ []))) }
        ensures err { OnErr result (self.new ≡ self.old) }
    {
        let Some(position) = self.position else {
            return Ok(None);
        };
        let text = position.line(self.alloc)?;
        self.position = position.following();
        Ok(Some(text))
    }

    /// The next line, without the octet 0a that ends it; None at the end. After want of memory the same line comes
    /// next.
    pub fn next_line(&mut self) -> Result<Option<Octets>, NoMemory>
        ensures line { IfOk result (λ line. IfSome line (λ octets. self.old ≡ octets ∷ self.new)) }
        ensures end { IfOk result (λ line. IfNone line ((self.old ≡ []) × (self.new ≡ []))) }
        ensures err { OnErr result (self.new ≡ self.old) }
    {
        match self.next_text()? {
            Some(text) => Ok(Some(Octets::from_vec(text))),
            None => Ok(None),
        }
    }
}

/// Writes a line and the octet 0a.
fn write_line<K: Sink>(sink: &mut K, line: Vec<u8>) -> Result<(), GenerateFault>
    ensures ok { OnOk result
        (Appends (K.written sink.old) (K.written sink.new) (line.items ++ 10 ∷ [])) }
    ensures err { OnErr result
        (AppendsPrefix (K.written sink.old) (K.written sink.new) (line.items ++ 10 ∷ [])) }
    ensures counts_faults { Counts (result ≡ Err Write) (K.faults sink.old) (K.faults sink.new) }
{
    let mut text = line;
    text.push(b'\n')?;
    match sink.write(text.as_slice()) {
        Put::Done => Ok(()),
        Put::Failed => Err(GenerateFault::Write),
    }
}

/// Writes the transcript of so many logins, as `Generator` gives its lines, each by one write. After a fault a prefix
/// of it was written.
pub fn generate<K: Sink>(
    alloc: Global,
    count: u32,
    seed: u32,
    sink: &mut K,
) -> Result<(), GenerateFault>
    requires some { 1 ≤ count }
    requires most { count ≤ 1000000 }
    ensures ok { OnOk result
        (Appends (K.written sink.old) (K.written sink.new) (generated_text count seed)) }
    ensures err { OnErr result
        (AppendsPrefix (K.written sink.old) (K.written sink.new) (generated_text count seed)) }
    ensures counts_faults { Counts (result ≡ Err Write) (K.faults sink.old) (K.faults sink.new) }
{
    let mut generator = Generator::new(alloc, count, seed);
    while let Some(line) = generator.next_text()? {
        write_line(sink, line)?;
    }
    Ok(())
}
