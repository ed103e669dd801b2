//! Reads the history of a text, line by line. Hosts call `moves_of`.

ghost use Rattle.std.specs.Prelude.{◌≡◌, ◌+◌, ◌++◌, ◌∷◌, [], ◌<◌, ◌^◌, Ok, map};
ghost use Rattle.bb_basis.specs.Results.{Gives};
ghost use Rattle.bb_moves.specs.Meant.{meant};
ghost use Rattle.bb_moves.specs.MovesText.{after_line, after_move, at_end, inside, move_of, moves_of};
ghost use Rattle.bb_moves.specs.MovesText.{nothing_read, outside, says_nothing, with_asks, with_move};
ghost use Rattle.bb_moves.specs.MovesText.{one_more};
ghost use Rattle.bb_moves.specs.proving.Reading.{asks_so_far, so_far};
ghost use Rattle.bb_moves.specs.declared.fault.Slip.TheVariants.{Memory as OutOfMemory};
ghost use Rattle.bb_moves.specs.declared.fault.MovesFault.TheVariants.{Memory as NoMemory};

use crate::asks::read_ask;
use crate::fault::{MovesFault, MovesFlaw, Slip, placed};
use crate::keyword::{Gathering, Keyword, keyword_of};
use crate::moves::Move;
use crate::words::{first_word, read_count, read_nothing};
use bb_schema::Schema;
use bb_shell::Ask;
use std::alloc::Global;

// Asks whose `end` is yet to come, and what they are gathered for.
#[derive(Drop)]
struct Gathered {
    gathering: Gathering,
    asks: Vec<Ask>,
}

impl Gathered {
    // No asks yet.
    fn new(alloc: Global, gathering: Gathering) -> Gathered
        ensures { asks_so_far result ≡ record { gathering = gathering; asks = [] } }
    {
        Gathered {
            gathering,
            asks: Vec::new(alloc),
        }
    }

    // The move, once all asks are read.
    fn into_move(self) -> Move
        ensures { meant result ≡ move_of (asks_so_far self) }
    {
        match self.gathering {
            Gathering::Post => Move::Post(self.asks),
            Gathering::Answer => Move::Answer(self.asks),
        }
    }
}

// What was read so far: the moves, and asks whose `end` is yet to come.
#[derive(Drop)]
struct Reading {
    moves: Vec<Move>,
    gathered: Option<Gathered>,
}

// Whether a line is empty or begins with `#`.
fn says_nothing(line: &str) -> bool
    ensures { result ≡ says_nothing line.now }
{
    match line.as_bytes() {
        [] => true,
        [first, ..] => *first == b'#',
    }
}

impl Reading {
    fn new(alloc: Global) -> Reading
        ensures { so_far result ≡ nothing_read }
    {
        Reading {
            moves: Vec::new(alloc),
            gathered: None,
        }
    }

    // Adds a move.
    fn add(&mut self, each: Move) -> Result<(), Slip>
        ensures { Gives OutOfMemory (λ _. so_far self.new) result (Ok (with_move (so_far self.old) (meant each))) }
    {
        self.moves.push(each)?;
        Ok(())
    }

    // Sets the asks that are gathered.
    fn gather(&mut self, gathered: Gathered)
        ensures { so_far self.new ≡ with_asks (so_far self.old) (asks_so_far gathered) }
    {
        self.gathered = Some(gathered);
    }

    // Reads `turn`, `advance N`, `post` or `answer`.
    #[tactic(auto, unfolding(crate::specs::MovesText::after_move))]
    fn read_move(&mut self, alloc: Global, keyword: Keyword, text: &str) -> Result<(), Slip>
        ensures { Gives OutOfMemory (λ _. so_far self.new) result (after_move (so_far self.old) keyword text.now) }
    {
        match keyword {
            Keyword::Turn => {
                read_nothing(text)?;
                self.add(Move::Turn)
            }
            Keyword::Advance => {
                let cycles = read_count(alloc, text)?;
                self.add(Move::Advance(cycles))
            }
            Keyword::Gather(gathering) => {
                read_nothing(text)?;
                self.gather(Gathered::new(alloc, gathering));
                Ok(())
            }
            Keyword::End | Keyword::Ask(_) => Err(Slip::Flaw(MovesFlaw::Place)),
        }
    }

    // Reads a line while no asks are gathered.
    #[tactic(auto, unfolding(crate::specs::MovesText::outside))]
    fn read_outside(&mut self, alloc: Global, line: &str) -> Result<(), Slip>
        ensures { Gives OutOfMemory (λ _. so_far self.new) result (outside (so_far self.old) line.now) }
    {
        let (word, text) = first_word(line);
        let keyword = keyword_of(word).ok_or(Slip::Flaw(MovesFlaw::Word))?;
        self.read_move(alloc, keyword, text)
    }

    // Adds an ask to the gathered ones.
    fn add_ask(&mut self, mut gathered: Gathered, ask: Ask) -> Result<(), Slip>
        ensures { Gives OutOfMemory (λ _. so_far self.new) result
            (Ok (with_asks (so_far self.old) (one_more (asks_so_far gathered) ask))) }
    {
        gathered.asks.push(ask)?;
        self.gather(gathered);
        Ok(())
    }

    // Reads a line while these asks are gathered: another ask, or `end`.
    #[tactic(auto, unfolding(crate::specs::MovesText::inside))]
    fn read_inside(
        &mut self,
        alloc: Global,
        schema: &Schema,
        gathered: Gathered,
        line: &str,
    ) -> Result<(), Slip>
        ensures { Gives OutOfMemory (λ _. so_far self.new) result
            (inside schema.now (so_far self.old) (asks_so_far gathered) line.now) }
    {
        let (word, text) = first_word(line);
        match keyword_of(word).ok_or(Slip::Flaw(MovesFlaw::Word))? {
            Keyword::Ask(word) => {
                let ask = read_ask(alloc, schema, word, text)?;
                self.add_ask(gathered, ask)
            }
            Keyword::End => {
                read_nothing(text)?;
                self.add(gathered.into_move())
            }
            Keyword::Turn | Keyword::Advance | Keyword::Gather(_) => {
                Err(Slip::Flaw(MovesFlaw::Place))
            }
        }
    }

    #[tactic(auto, unfolding(crate::specs::MovesText::after_line))]
    fn read_line(&mut self, alloc: Global, schema: &Schema, line: &str) -> Result<(), Slip>
        ensures { Gives OutOfMemory (λ _. so_far self.new) result (after_line schema.now (so_far self.old) line.now) }
    {
        let line = line.trim();
        if says_nothing(line) {
            return Ok(());
        }
        match self.gathered.take() {
            None => self.read_outside(alloc, line),
            Some(gathered) => self.read_inside(alloc, schema, gathered, line),
        }
    }

    // The moves, if no asks are gathered. The text has `lines` lines.
    fn finish(self, lines: u64) -> Result<Vec<Move>, MovesFault>
        requires { lines + 1 < 2 ^ 64 }
        ensures { Gives NoMemory (λ v. map meant v.items) result (at_end lines (so_far self)) }
    {
        let Reading { moves, gathered } = self;
        match gathered {
            None => Ok(moves),
            Some(_) => Err(MovesFault::At {
                line: lines + 1,
                flaw: MovesFlaw::End,
            }),
        }
    }
}

/// Reads the moves of a text, or returns the first fault from the top. Labels are the schema's. `Memory` can occur at
/// any point.
#[tactic(auto, unfolding(crate::specs::MovesText::moves_of))]
pub fn moves_of(alloc: Global, schema: &Schema, text: &str) -> Result<Vec<Move>, MovesFault>
    ensures { Gives NoMemory (λ v. map meant v.items) result (moves_of schema.now text.now) }
{
    let mut reading = Reading::new(alloc);
    let mut lines = 0u64;
    for line in text.lines() {
        let answer = reading.read_line(alloc, schema, line);
        placed(answer, lines)?;
        lines += 1;
    }
    reading.finish(lines)
}
