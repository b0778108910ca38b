//! Where frames go.
ghost use Rattle.std.specs.Prelude.{◌≡◌, ℕ, ◌≤◌, length, List, ◌∷◌, []};
ghost use Rattle.frames.specs.Sinks.{SinkMeaning, SinkAnswer, piece_unless_empty};

use crate::room::Room;
use layout::Fault;

/// What takes frames, piece by piece. A piece is taken exactly if its length and its cost are free.
pub trait IpcMessageSink {
    /// What a piece costs of the pieces that are free: 0 or 1.
    const PIECE_COST: u64;

    // The same for clauses, which cannot name the constant of a type that borrows.
    ghost cost: { ℕ };

    ghost meaning: { Self → SinkMeaning };

    // The memories that it writes to, by their names. They stay the same.
    ghost memories: { Self → List ℕ };

    /// The constant, for code that has to know what it is.
    fn price() -> u64
        ensures { result ≡ cost };

    /// What is free.
    fn free(&self) -> Room
        ensures bytes { result.bytes ≡ (meaning self.now).bytes }
        ensures pieces { result.pieces ≡ (meaning self.now).pieces };

    /// Takes bytes as a piece, and nothing where there are none.
    fn write_slice(&mut self, bytes: &[u8]) -> Result<(), Fault>
        ensures answer { SinkAnswer cost bytes.now (piece_unless_empty (length bytes.now)) (meaning self.old) (meaning self.new) result }
        ensures memories { memories self.new ≡ memories self.old };

    /// Takes bytes as a piece, also where there are none.
    fn write_encoded_buffer(&mut self, bytes: &[u8]) -> Result<(), Fault>
        ensures answer { SinkAnswer cost bytes.now (length bytes.now ∷ []) (meaning self.old) (meaning self.new) result }
        ensures memories { memories self.new ≡ memories self.old };

    // What each `impl` proves.
    ghost small_cost: { cost ≤ 1 };
}
