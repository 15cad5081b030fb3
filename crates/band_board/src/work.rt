//! What the bands of a board are.

ghost use Rattle.std.specs.Prelude.{ℕ, ◌^◌, ◌<◌};

/// A kind of work in bands: a run that all of them belong to, the job that a band is before it is
/// drawn, and what it is afterwards. A band is known by its number, from 0 on. No value of a kind of
/// work is made.
pub trait Work {
    type Run: Drop + Send + Sync;

    type Job: Drop + Send;

    type Drawn: Drop + Send;

    /// Which job is right for a run and a number.
    ghost right_job: { Self.Run → ℕ → Self.Job → Type 0 };

    /// What a band with this number is, drawn.
    ghost right_drawn: { Self.Run → ℕ → Self.Drawn → Type 0 };

    /// A job is right only for a number below 2^32.
    ghost few: { (run : Self.Run) (n : ℕ) (job : Self.Job) → right_job run n job → n < 2 ^ 32 };
}
