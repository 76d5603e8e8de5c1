//! Whoever answers lines.

ghost use Rattle.std.specs.Prelude.{◌≡◌, [], ◌∷◌, ◌++◌, List};
ghost use Rattle.line_session.specs.Answering.{answered_with};

use crate::line_answer::LineAnswer;

/// Answers lines, one after another.
pub trait Answers: Drop {
    ghost use Rattle.std.specs.Prelude.{List};
    ghost use Rattle.line_session.specs.Answering.{Answered};

    /// Calls that began in the first state were given these lines and answered so, and left the second.
    ghost answers: { Self → List Answered → Self → Type 0 };

    /// Answers a line, without its line feed. It must not wait.
    fn answer(&mut self, line: &str) -> LineAnswer
        ensures { answers self.old (answered_with line.now result ∷ []) self.new };

    ghost answers_nothing: { (s : Self) → answers s [] s };

    ghost answers_in_order: { (a : Self) (xs : List Answered) (b : Self) (ys : List Answered) (c : Self)
        → answers a xs b → answers b ys c → answers a (xs ++ ys) c };
}
