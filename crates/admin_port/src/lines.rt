//! Whoever answers the lines of one connection.
ghost use Rattle.std.specs.Prelude.{◌≡◌};
ghost use Rattle.line_session.specs.Unsent.{text_bytes};
ghost use Rattle.admin_port.specs.Carrying.{CarriesOut, Tells, is_bye};

use crate::orders::Orders;
use crate::parse::parse_order;
use crate::print::{print_reply, short_reply};
use hub::AdminReply;
use line_session::{Answers, LineAnswer, is_request};
use std::alloc::Global;

/// Answers the lines of one connection: a line that spells an order has it carried out and is told the reply, and any
/// other is told why not. The connection ends behind the reply to `quit`, and at the first line of a request over
/// HTTP/1.1, whatever else that would spell: what a web page has a browser send is carried out in no part.
///
/// Only a report can find no memory for its text, and then `error Memory` is told.
#[derive(Drop)]
pub struct AdminLines<O> {
    pub alloc: Global,
    pub orders: O,
}

impl<O: Orders> AdminLines<O> {
    // Has the order of a line carried out. It answers what is to be told.
    fn carry_out(&mut self, line: &str) -> AdminReply
        ensures done { CarriesOut O.obeys self.old.orders line.now result self.new.orders }
    {
        let done = match parse_order(self.alloc, line) {
            Ok(order) => self.orders.order(order),
            Err(fault) => Err(fault),
        };
        match done {
            Ok(reply) => reply,
            Err(fault) => AdminReply::Failed(fault),
        }
    }
}

impl<O: Orders> Answers for AdminLines<O> {
    ghost use Rattle.admin_port.specs.Carrying.{AnswersBy};
    ghost use Rattle.admin_port.specs.Laws.{carried_in_order, nothing_carried};

    ghost answers = { λ a xs b. AnswersBy O.obeys a.orders xs b.orders };

    ghost answers_nothing = { λ s. nothing_carried O.obeys O.obeys_nothing s.orders };

    ghost answers_in_order = { λ a xs b ys c.
        carried_in_order O.obeys O.obeys_in_order a.orders xs b.orders ys c.orders };

    fn answer(&mut self, line: &str) -> LineAnswer {
        if is_request(line) {
            return LineAnswer::fixed("error BadCommand\n").last();
        }
        let reply = self.carry_out(line);
        tell(self.alloc, &reply)
    }
}

// Only a report can find no memory, and then this is what is told.
fn tell(alloc: Global, reply: &AdminReply) -> LineAnswer
    ensures told { Tells reply.now (text_bytes result.text) }
    ensures last { result.is_last ≡ is_bye reply.now }
{
    let answer = match short_reply(reply) {
        Some(text) => LineAnswer::fixed(text),
        None => match print_reply(alloc, reply) {
            Ok(text) => LineAnswer::made(text),
            Err(_) => LineAnswer::fixed("error Memory\n"),
        },
    };
    if is_bye(reply) { answer.last() } else { answer }
}

fn is_bye(reply: &AdminReply) -> bool
    ensures { result ≡ is_bye reply.now }
{
    match reply {
        AdminReply::Done => false,
        AdminReply::Report { .. } => false,
        AdminReply::Bye => true,
        AdminReply::Failed(_) => false,
    }
}
