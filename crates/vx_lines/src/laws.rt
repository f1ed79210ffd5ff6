// Laws of the lines of a source.
ghost use Rattle.std.specs.Prelude.{◌≡◌, ◌≢◌, ℕ, List};
ghost use Rattle.vx_lines.specs.Lines.{Reading, ComesWith};
ghost use Rattle.vx_lines.specs.declared.next_line.NextLine.{NextLine};

/// The answers of `next_line` exclude each other, so each comes exactly where its row of the table holds. `Failed`
/// stands apart: it comes only with a fault of the source.
pub fn one_answer()
    ensures { (most piece : ℕ) (a b : NextLine) (input : List ℕ) (new : Reading) → a ≢ NextLine.Failed → b ≢ NextLine.Failed
        → ComesWith most piece a input new → ComesWith most piece b input new → a ≡ b }
{}
