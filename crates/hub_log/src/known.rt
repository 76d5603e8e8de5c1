use std::marker::Model;

/// What a pass knows of the log, and what it has the right to. No value of it is made.
pub struct Known {
    none: (),
}

impl Model for Known {
    ghost use Rattle.std.specs.Prelude.{[]};
    ghost use Rattle.hub_log.specs.Views.{View};
    ghost use Rattle.hub_log.specs.Rule.{spent};

    ghost Value = { View };

    ghost view = { λ _. spent };
}
