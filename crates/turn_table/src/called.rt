//! The step that a stamp is drawn for, as the rule is told of it.

ghost use Rattle.vfs_base.specs.declared.step.Step.{Step};
ghost use Rattle.vfs_base.specs.declared.step.Step.TheVariants as step;
ghost use Rattle.vfs_base.specs.declared.entry.Mark.{Mark};
ghost use Rattle.vfs_base.specs.declared.entry.Mark.TheVariants as mark;
ghost use Rattle.vfs_base.specs.declared.reply.Reply.{Reply};
ghost use Rattle.vfs_base.specs.declared.reply.Reply.TheVariants as reply;

use std::marker::Brand;

/// A step with its outcome. For the proofs alone: `TurnTable::stamp` picks it from its arguments.
pub trait Called {
    ghost asked: { Step };

    ghost outcome: { Mark };

    ghost answer: { Reply };
}

impl Called for Brand {
    ghost asked = { step.Home };

    ghost outcome = { mark.Clear };

    ghost answer = { reply.Done };
}
