//! Whoever carries orders out.

ghost use Rattle.std.specs.Prelude.{◌≡◌, [], ◌∷◌, ◌++◌};

use hub::{AdminOrder, AdminReply, OrderFault};

/// Carries orders out, one after another.
pub trait Orders: Drop {
    ghost use Rattle.admin_port.specs.Serving.{Obeyed};

    /// Calls that began in the first state were given these orders and answered so, and left the second.
    ghost obeys: { Self → Obeyed → Self → Type 0 };

    /// Carries an order out. It must not wait.
    fn order(&mut self, order: AdminOrder) -> Result<AdminReply, OrderFault>
        ensures { obeys self.old ((order, result) ∷ []) self.new };

    ghost obeys_nothing: { (s : Self) → obeys s [] s };

    ghost obeys_in_order: { (a : Self) (xs : Obeyed) (b : Self) (ys : Obeyed) (c : Self)
        → obeys a xs b → obeys b ys c → obeys a (xs ++ ys) c };
}
