//! A rule stands behind a box, so that the commands that come most often stay small.
ghost use Rattle.std.specs.Prelude.{◌≡◌, IfOk};

use sf_rules::Rule;
use std::alloc::{AllocError, Global};
use std::marker::Model;

/// A rule behind a box. Contracts see it as the rule.
#[derive(Drop)]
pub struct BoxedRule {
    rule: Box<Rule>,
}

impl Model for BoxedRule {
    ghost use Rattle.std.specs.Prelude.{box_value};
    ghost use Rattle.sf_rules.specs.declared.rule.Rule.{Rule};

    ghost Value = { Rule };

    ghost view = { λ a. box_value a.rule };
}

impl BoxedRule {
    pub fn new(alloc: Global, rule: Rule) -> Result<BoxedRule, AllocError>
        ensures { IfOk result (λ boxed. boxed ≡ rule) }
    {
        let rule = Box::new(alloc, rule)?;
        Ok(BoxedRule { rule })
    }

    pub fn into_rule(self) -> Rule
        ensures { result ≡ self }
    {
        Box::into_inner(self.rule)
    }
}
