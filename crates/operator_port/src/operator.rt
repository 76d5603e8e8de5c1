//! Whoever answers the lines of one connection.
//!
//! `AdminLines` of admin_port has the same shape, over orders in place of questions.
ghost use Rattle.std.specs.Prelude.{◌≡◌, [], ◌∷◌, ◌++◌};

use crate::print::tell;
use crate::question::{Question, parse_question};
use crate::reply::Reply;
use line_session::{Answers, LineAnswer, is_request};
use std::alloc::Global;

/// Whoever knows how a router stands.
pub trait Knows: Drop {
    ghost use Rattle.operator_port.specs.Asking.{Asked};
    ghost use Rattle.operator_port.specs.Questions.{view};

    /// Calls that began in the first state were asked so and replied so, and left the second.
    ghost asks: { Self → Asked → Self → Type 0 };

    /// Replies to a question. It must not wait.
    fn ask(&mut self, question: Question<'_>) -> Reply
        ensures { asks self.old ((view question.entry, result) ∷ []) self.new };

    ghost asks_nothing: { (s : Self) → asks s [] s };

    ghost asks_in_order: { (a : Self) (xs : Asked) (b : Self) (ys : Asked) (c : Self)
        → asks a xs b → asks b ys c → asks a (xs ++ ys) c };
}

/// Answers the lines of one connection: a line that asks a question is told the reply to it, and any other
/// `error BadCommand`. A reply that finds no memory for its text is told as `error Memory`. The connection ends at the first
/// line of a request over HTTP/1.1: what a web page has a browser send is asked in no part.
#[derive(Drop)]
pub struct Operator<K> {
    pub alloc: Global,
    pub knows: K,
}

impl<K: Knows> Answers for Operator<K> {
    ghost use Rattle.operator_port.specs.Asking.{AnswersBy};
    ghost use Rattle.operator_port.specs.Laws.{nothing_asked, asked_in_order};

    ghost answers = { λ a xs b. AnswersBy K.asks a.knows xs b.knows };

    ghost answers_nothing = { λ s. nothing_asked K.asks K.asks_nothing s.knows };

    ghost answers_in_order = { λ a xs b ys c.
        asked_in_order K.asks K.asks_in_order a.knows xs b.knows ys c.knows };

    fn answer(&mut self, line: &str) -> LineAnswer {
        if is_request(line) {
            return LineAnswer::fixed("error BadCommand\n").last();
        }
        match parse_question(line) {
            Some(question) => {
                let reply = self.knows.ask(question);
                tell(self.alloc, &reply)
            }
            None => LineAnswer::fixed("error BadCommand\n"),
        }
    }
}
