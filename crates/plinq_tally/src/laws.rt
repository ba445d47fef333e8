//! What a tally counts and figures come to, each law the contract of a function with nothing to do.
ghost use Rattle.std.specs.Prelude.{◌≡◌, ◌%◌, ℕ, List, [], None, filter, length};
ghost use Rattle.std.specs.List.{fold};
ghost use Rattle.std.specs.Str.{bytes_eq};
ghost use Rattle.plinq_tally.specs.Figures.{and_number, figure_at, figured_lines, numbers_with};
ghost use Rattle.plinq_tally.specs.Tallies.{tallied, times, total};
ghost use Rattle.plinq_text.specs.Lines.{Line};

/// A tally has how often each text came among the lines, modulo 2^64.
pub fn counts_are_times()
    ensures { (text : List ℕ) (ls : List Line) →
        times text (tallied [] ls) ≡ length (filter (λ l. bytes_eq text l.text) ls) % 18446744073709551616 }
{}

/// Its counts add up to the number of lines, modulo 2^64.
pub fn counts_add_up()
    ensures { (ls : List Line) → total (tallied [] ls) ≡ length ls % 18446744073709551616 }
{}

/// What a key's numbers come to is taken of these alone, in their order.
pub fn figures_are_of_numbers()
    ensures { (byte : ℕ) (key : List ℕ) (ls : List Line) →
        figure_at key (figured_lines byte [] ls) ≡ fold and_number None (numbers_with byte key ls) }
{}
