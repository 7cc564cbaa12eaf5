//! Scripts read from their text.

ghost use Rattle.std.specs.Prelude.{◌≡◌, None, Some, IfOk, IfErr, IfSome, OnOk, IsTrue, IsUtf8, Ok, Err, All};
ghost use Rattle.std.specs.Option.{option_copied};
ghost use Rattle.std.specs.Str.{is_utf8};
ghost use Rattle.plain_text.specs.LineGrammar.{IsFault, IsOkOr, IsTextOf};
ghost use Rattle.life_records.specs.Limits.{KeepsLimits};
ghost use Rattle.script_text.specs.Grammar.{AsksWithinLimits, MayStand, Script, last_life, no_script, with_said};
ghost use Rattle.script_text.specs.Reading.{IsTextRead, begun, judged, line_of, said_below, said_by};
ghost use Rattle.script_text.specs.ScriptGrammar.{script_grammar};
ghost use Rattle.script_text.specs.Within.{IsScriptWithin};

use crate::commands::CommandReader;
use crate::heads::{read_client, read_cut_behind, read_header, read_life};
use crate::lines::{ScriptLine, ScriptReason};
use cx_base::Items;
use life_records::{Command, Cut, Life, Script};
use plain_text::{LineReader, TextFault, is_word, read_lines, split_word};
use std::alloc::{AllocError, Global};
use std::marker::Model;

/// The most commands of a script.
const MAX_COMMANDS: usize = 100_000;

/// Reads a script with these commands. It is Ok exactly for the texts of scripts, unless memory runs out. Other texts are refused
/// by the first line with which the lines so far are no script.
pub fn read_script<C: CommandReader>(
    alloc: Global,
    bytes: &[u8],
) -> Result<Script<C::Op>, TextFault<C::Reason>>
    // The script that is returned is the one that `bytes` are the text of.
    ensures script { IfOk result (IsTextOf (script_grammar C.commands) bytes.now) }
    // Where `bytes` are the text of a script, that script is returned, unless memory runs out.
    ensures only { (script : Script C.Op) → IsTextOf (script_grammar C.commands) bytes.now script → IsOkOr script result }
    ensures limits { IfOk result (KeepsLimits C.is_op C.commands.limits.clients) }
    ensures within { IfOk result (IsScriptWithin C.commands.limits) }
    // The refused line is the first one with which the lines up to it are no script.
    ensures refused { IfErr result (IsFault (script_grammar C.commands) bytes.now) }
{
    Ok(read_lines(alloc, bytes, Draft::<C>::new(alloc))?.finish())
}

/// The script of the lines so far. Contracts see the script.
#[derive(Drop)]
struct Draft<C: CommandReader> {
    lines: u64,
    lives: Vec<Life<C::Op>>,
    /// The commands of all lives.
    commands: usize,
}

impl<C: CommandReader> Model for Draft<C> {
    ghost use Rattle.std.specs.Prelude.{◌≡◌};
    ghost use Rattle.life_records.specs.Scripts.{command_count};
    ghost use Rattle.script_text.specs.Grammar.{Script};

    ghost Value = { Script C.Op };

    ghost view = { λ d. record { lines = d.lines; lives = d.lives.items } };

    ghost invariant = { λ d. d.commands ≡ command_count d.lives.items };
}

impl<C: CommandReader> LineReader for Draft<C> {
    ghost use Rattle.std.specs.Prelude.{All};
    ghost use Rattle.script_text.specs.Reading.{judged};
    ghost use Rattle.script_text.specs.ScriptGrammar.{script_grammar};
    ghost use Rattle.script_text.specs.Judging.{reads_scripts};

    type Reason = C::Reason;

    ghost grammar = { script_grammar C.commands };

    ghost judged = { judged C.commands C.asked };

    ghost Keeps = { λ script. All (λ life. All (λ c. C.is_op c.op) life.commands) script.lives };

    /// Adds a line, or gives the reason for which it is refused.
    #[tactic(auto, unfolding(crate::specs::Reading::judged))]
    fn add_line(&mut self, alloc: Global, line: &[u8]) -> Result<Option<C::Reason>, AllocError> {
        if matches!(line, [] | [b'#', ..]) {
            return Ok(None);
        }
        let says = match self.read_line(alloc, line)? {
            Ok(says) => says,
            Err(reason) => return Ok(Some(reason)),
        };
        self.add(alloc, says)?;
        Ok(None)
    }

    ghost reads = { reads_scripts C.commands C.asked C.reads };
}

impl<C: CommandReader> Draft<C> {
    /// The script of no lines.
    fn new(alloc: Global) -> Self
        ensures { result ≡ no_script }
    {
        Draft {
            lines: 0,
            lives: Vec::new(alloc),
            commands: 0,
        }
    }

    /// Reads a line that is not passed over: what it adds to the script, or why it is refused. `Err` means out of memory.
    #[tactic(auto, unfolding(crate::specs::Reading::line_of))]
    fn read_line(
        &self,
        alloc: Global,
        line: &[u8],
    ) -> Result<Result<ScriptLine<C::Op>, C::Reason>, AllocError>
        ensures { IfOk result (IsTextRead (AsksWithinLimits C.is_op) (line_of C.commands C.asked self.now line.now)) }
    {
        if !is_text(line) {
            return Ok(Err(C::reason(ScriptReason::Utf8)));
        }
        if self.lines == 0 {
            return Ok(match read_header(line) {
                Some(lines) => Ok(ScriptLine::Lines(lines)),
                None => Err(C::reason(ScriptReason::Header)),
            });
        }
        self.read_below(alloc, line)
    }

    /// Reads a line behind the header.
    fn read_below(
        &self,
        alloc: Global,
        line: &[u8],
    ) -> Result<Result<ScriptLine<C::Op>, C::Reason>, AllocError>
        requires { IsUtf8 line.now }
        ensures { IfOk result (IsTextRead (AsksWithinLimits C.is_op) (said_below C.commands C.asked self.now.lives line.now)) }
    {
        let (word, rest) = split_word(line);
        if is_word(b"life", word) {
            return Ok(begun::<C>(self.lives.len(), read_life(C::limits().clients, line)));
        }
        let Some(life) = self.last_life() else {
            return Ok(Err(C::reason(ScriptReason::Life)));
        };
        read_in::<C>(
            alloc,
            self.commands,
            life.clients,
            life.cuts.as_slice(),
            word,
            rest,
        )
    }

    /// The life that was begun last.
    #[tactic(auto, using(crate::proofs::LastLives::slice_get_last))]
    fn last_life(&self) -> Option<&Life<C::Op>>
        ensures { option_copied result ≡ last_life self.now.lives }
    {
        self.lives.last()
    }

    /// Adds a line that may stand here to the script. `Err` means out of memory.
    fn add(&mut self, alloc: Global, says: ScriptLine<C::Op>) -> Result<(), AllocError>
        requires { MayStand C.commands self.old says }
        ensures { OnOk result (self.new ≡ with_said self.old says) }
    {
        match says {
            ScriptLine::Lines(lines) => {
                self.lines = lines;
                Ok(())
            }
            ScriptLine::Life { clients, choice } => self.begin(alloc, clients, choice),
            ScriptLine::Cut(cut) => self.add_cut(cut),
            ScriptLine::Command(command) => self.add_command(command),
        }
    }

    /// Begins a life, of which nothing was read yet.
    fn begin(&mut self, alloc: Global, clients: u32, choice: u64) -> Result<(), AllocError>
        ensures { OnOk result (self.new ≡ with_said self.old (ScriptLine.Life clients choice)) }
    {
        self.lives.push(Life {
            clients,
            choice,
            cuts: Items::new(alloc),
            commands: Items::new(alloc),
        })?;
        Ok(())
    }

    /// Adds a cut to the life that is read.
    fn add_cut(&mut self, cut: Cut) -> Result<(), AllocError>
        ensures { OnOk result (self.new ≡ with_said self.old (ScriptLine.Cut cut)) }
    {
        let Some(life) = self.lives.last_mut() else {
            return Ok(());
        };
        life.cuts.push(cut)?;
        Ok(())
    }

    /// Adds a command to the life that is read.
    fn add_command(&mut self, command: Command<C::Op>) -> Result<(), AllocError>
        requires { MayStand C.commands self.old (ScriptLine.Command command) }
        ensures { OnOk result (self.new ≡ with_said self.old (ScriptLine.Command command)) }
    {
        let Some(life) = self.lives.last_mut() else {
            return Ok(());
        };
        life.commands.push(command)?;
        self.commands += 1;
        Ok(())
    }

    /// The script, once all lines are read.
    fn finish(self) -> Script<C::Op>
        ensures { result ≡ self }
    {
        let Draft { lines, lives, .. } = self;
        Script {
            lines,
            lives: Items::of(lives),
        }
    }
}

/// Reads the first line of a life, where `count` lives stand before it: the life's clients and choice, or why the line is refused.
fn begun<C: CommandReader>(
    count: usize,
    life: Option<(u32, u64)>,
) -> Result<ScriptLine<C::Op>, C::Reason>
    ensures { IsTextRead (AsksWithinLimits C.is_op) (begun C.commands count life) result }
{
    match life {
        None => Err(C::reason(ScriptReason::Life)),
        Some(_) if count >= C::limits().lives => Err(C::reason(ScriptReason::Lives)),
        Some((clients, choice)) => Ok(ScriptLine::Life { clients, choice }),
    }
}

/// Reads a line in a life of `clients` clients with these cuts, which begins no life, by its first word and the rest. `count`
/// commands stand before it.
fn read_in<C: CommandReader>(
    alloc: Global,
    count: usize,
    clients: u32,
    cuts: &[Cut],
    word: &[u8],
    rest: Option<&[u8]>,
) -> Result<Result<ScriptLine<C::Op>, C::Reason>, AllocError>
    requires { IfSome rest (λ text. IsUtf8 text.now) }
    ensures { IfOk result (IsTextRead (AsksWithinLimits C.is_op) (said_by C.commands C.asked count clients cuts.now word.now (option_copied rest.entry))) }
{
    if is_word(b"cut", word) {
        return Ok(
            match read_cut_behind(C::limits().cuts, clients, cuts, rest) {
                Some(cut) => Ok(ScriptLine::Cut(cut)),
                None => Err(C::reason(ScriptReason::Cut)),
            },
        );
    }
    let Some(client) = read_client(clients, word) else {
        return Ok(Err(C::reason(ScriptReason::Client)));
    };
    if count >= MAX_COMMANDS {
        return Ok(Err(C::reason(ScriptReason::Commands)));
    }
    Ok(match C::read_op(alloc, rest)? {
        Ok(op) => Ok(ScriptLine::Command(Command { client, op })),
        Err(reason) => Err(reason),
    })
}

/// Whether the bytes are UTF-8.
fn is_text(bytes: &[u8]) -> bool
    ensures value { result ≡ is_utf8 bytes.now }
    ensures some { IsTrue result → IsUtf8 bytes.now }
{
    match simdutf8::basic::from_utf8(bytes) {
        Ok(_) => true,
        Err(_) => false,
    }
}
