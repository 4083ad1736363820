//! The line that has begun: its number, and what is kept of it.

ghost use Rattle.std.specs.Prelude.{◌≡◌, ◌++◌, ℕ, List, []};
ghost use Rattle.oth_text.specs.Transcript.{is_nil};
ghost use Rattle.oth_words.specs.declared.settings.Command.{Command as CommandGiven};
ghost use Rattle.oth_run.specs.Faulty.{of_board};
ghost use Rattle.oth_run.specs.Line.{Holds, Keeps, Reads};
ghost use Rattle.oth_run.specs.Report.{next_number};

use crate::game::Game;
use crate::reading::Reading;
use crate::solvable::Solvable;
use oth_text::{
    AnalysisReader, BoardReader, Fault, GameFault, GameReader, LineFault, TranscriptReader,
};
use oth_words::Command;

/// A line of any length that is read in parts. It takes no more room than it is declared with.
#[derive(Drop)]
pub struct Line {
    /// Its number, from 1; it stays at the greatest number.
    number: u64,
    kept: Kept,
}

/// What is kept of a line, by what is asked of it.
#[derive(Drop)]
pub enum Kept {
    Solve(BoardReader),
    Scores(BoardReader),
    Moves(BoardReader),
    Transcript(TranscriptReader),
    Play(GameReader),
    /// A game, to be analysed from this number of empty squares on.
    Analyse(AnalysisReader, u8),
}

impl Line {
    /// The first line, with no byte yet.
    pub fn new(command: Command) -> Self
        ensures { Holds command result 1 [] }
    {
        Line {
            number: 1,
            kept: Kept::new(command),
        }
    }

    /// Begins the next line.
    pub fn clear(&mut self)
        ensures { (command : CommandGiven) (number : ℕ) (line : List ℕ) → Holds command self.old number line
            → Holds command self.new (next_number number) [] }
    {
        self.number = self.number.saturating_add(1);
        self.kept.clear();
    }

    /// Takes the next bytes of the line.
    pub fn push(&mut self, bytes: &[u8])
        ensures { (command : CommandGiven) (number : ℕ) (line : List ℕ) → Holds command self.old number line
            → Holds command self.new number (line ++ bytes.now) }
    {
        self.kept.push(bytes);
    }

    /// Whether the line has no byte.
    pub fn is_empty(&self) -> bool
        ensures { (command : CommandGiven) (number : ℕ) (line : List ℕ) → Holds command self.now number line
            → result ≡ is_nil line }
    {
        self.kept.is_empty()
    }

    /// The number of the line.
    pub fn number(&self) -> u64
        ensures { result ≡ self.now.number }
    {
        self.number
    }

    /// What the line, which ends here, is read as.
    pub fn read(&self) -> Reading<'_>
        ensures { (command : CommandGiven) (number : ℕ) (line : List ℕ) → Holds command self.now number line
            → Reads command number line result }
    {
        match &self.kept {
            Kept::Solve(reader) => match reader.read_solvable() {
                Ok(position) => Reading::Solve(Solvable { position }),
                Err(fault) => Reading::Faulty(of_board(fault)),
            },
            Kept::Scores(reader) => match reader.read_solvable() {
                Ok(position) => Reading::Scores(Solvable { position }),
                Err(fault) => Reading::Faulty(of_board(fault)),
            },
            Kept::Moves(reader) => match reader.read() {
                Ok(position) => Reading::Moves(position),
                Err(fault) => Reading::Faulty(of_board(fault)),
            },
            Kept::Transcript(reader) => match reader.read() {
                Ok(position) => Reading::Reached(position),
                Err(fault) => Reading::Faulty(Fault::Transcript(fault)),
            },
            Kept::Play(reader) => match reader.read() {
                Ok(position) => Reading::Reached(position),
                Err(fault) => Reading::Faulty(Fault::Game(fault)),
            },
            Kept::Analyse(reader, last) => Reading::Analyse(Game {
                number: self.number,
                reader,
                last: *last,
                fault: reader.fault(),
            }),
        }
    }
}

impl Kept {
    // Nothing is kept yet.
    fn new(command: Command) -> Self
        ensures { Keeps command result [] }
    {
        match command {
            Command::Solve => Kept::Solve(BoardReader::new()),
            Command::Scores => Kept::Scores(BoardReader::new()),
            Command::Moves => Kept::Moves(BoardReader::new()),
            Command::Transcript => Kept::Transcript(TranscriptReader::new()),
            Command::Play => Kept::Play(GameReader::new()),
            Command::Analyse(last) => Kept::Analyse(AnalysisReader::new(), last),
        }
    }

    // Forgets the line.
    fn clear(&mut self)
        ensures { (command : CommandGiven) (line : List ℕ) → Keeps command self.old line → Keeps command self.new [] }
    {
        match self {
            Kept::Solve(reader) => reader.clear(),
            Kept::Scores(reader) => reader.clear(),
            Kept::Moves(reader) => reader.clear(),
            Kept::Transcript(reader) => reader.clear(),
            Kept::Play(reader) => reader.clear(),
            Kept::Analyse(reader, _) => reader.clear(),
        }
    }

    // Takes the next bytes of the line.
    fn push(&mut self, bytes: &[u8])
        ensures { (command : CommandGiven) (line : List ℕ) → Keeps command self.old line
            → Keeps command self.new (line ++ bytes.now) }
    {
        match self {
            Kept::Solve(reader) => reader.push(bytes),
            Kept::Scores(reader) => reader.push(bytes),
            Kept::Moves(reader) => reader.push(bytes),
            Kept::Transcript(reader) => reader.push(bytes),
            Kept::Play(reader) => reader.push(bytes),
            Kept::Analyse(reader, _) => reader.push(bytes),
        }
    }

    // Whether the line has no byte.
    fn is_empty(&self) -> bool
        ensures { (command : CommandGiven) (line : List ℕ) → Keeps command self.now line → result ≡ is_nil line }
    {
        match self {
            Kept::Solve(reader) | Kept::Scores(reader) | Kept::Moves(reader) => reader.is_empty(),
            Kept::Transcript(reader) => reader.is_empty(),
            Kept::Play(reader) => reader.is_empty(),
            Kept::Analyse(reader, _) => reader.is_empty(),
        }
    }
}

// The fault of a board line.
fn of_board(fault: LineFault) -> Fault
    ensures { result ≡ of_board fault }
{
    Fault::Game(GameFault::Board(fault))
}
