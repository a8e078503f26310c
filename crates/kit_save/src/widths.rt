//! What the types of a federation and of a cut say of their numbers.

ghost use Rattle.std.specs.Prelude.{◌^◌, ◌<◌, All};
ghost use Rattle.kit_save.specs.Widths.{IsWordOperand, IsWordCond, IsWordAction, IsWordRule};
ghost use Rattle.kit_save.specs.Widths.{IsWordVar, IsWordFederate, HasWords};
ghost use Rattle.kit_save.specs.CutWidths.{IsWordMessage, HasStandingWords, HasCutWords};

use kit_base::Message;
use kit_cut::{Cut, Standing};
use kit_rules::{Action, Cond, Federate, Federation, Operand, Rule, Var};

/// Does nothing: it says that the number of an operand has 32 bits.
pub(crate) fn operand_has_word(operand: Operand)
    ensures { IsWordOperand operand }
{
    match operand {
        Operand::Num(_number) => (),
        _ => (),
    }
}

fn cond_has_words(cond: &Cond)
    ensures { IsWordCond cond.now }
{
    operand_has_word(cond.left);
    operand_has_word(cond.right);
}

fn action_has_word(action: &Action)
    ensures { IsWordAction action.now }
{
    match *action {
        Action::Set { var: _, to } => operand_has_word(to),
        Action::Add { var: _, by } | Action::Sub { var: _, by } => operand_has_word(by),
        Action::Send { value, .. } => operand_has_word(value),
        _ => (),
    }
}

fn conds_have_words(conds: &[Cond])
    ensures { All IsWordCond conds.now }
{
    for cond in conds {
        cond_has_words(cond);
    }
}

fn actions_have_words(actions: &[Action])
    ensures { All IsWordAction actions.now }
{
    for action in actions {
        action_has_word(action);
    }
}

fn rule_has_words(rule: &Rule)
    ensures { IsWordRule rule.now }
{
    conds_have_words(rule.conds.as_slice());
    actions_have_words(rule.actions.as_slice());
}

fn rules_have_words(rules: &[Rule])
    ensures { All IsWordRule rules.now }
{
    for rule in rules {
        rule_has_words(rule);
    }
}

fn var_has_word(var: &Var)
    ensures { IsWordVar var.now }
{
    let _value = var.value;
}

fn vars_have_words(vars: &[Var])
    ensures { All IsWordVar vars.now }
{
    for var in vars {
        var_has_word(var);
    }
}

fn federate_has_words(federate: &Federate)
    ensures { IsWordFederate federate.now }
{
    vars_have_words(federate.vars.as_slice());
    rules_have_words(federate.rules.as_slice());
}

fn federates_have_words(federates: &[Federate])
    ensures { All IsWordFederate federates.now }
{
    for federate in federates {
        federate_has_words(federate);
    }
}

/// Changes nothing: it says that the numbers of a federation have 32 bits.
pub(crate) fn federation_has_words(federation: &Federation)
    ensures { HasWords federation.now }
{
    federates_have_words(federation.federates());
}

fn message_has_word(message: &Message)
    ensures { IsWordMessage message.now }
{
    let _value = message.value;
}

fn messages_have_words(messages: &[Message])
    ensures { All IsWordMessage messages.now }
{
    for message in messages {
        message_has_word(message);
    }
}

fn values_have_words(values: &[u32])
    ensures { All (λ n. n < 2 ^ 32) values.now }
{
    for value in values {
        let _value = *value;
    }
}

fn standing_has_words(standing: &Standing)
    ensures { HasStandingWords standing.entry.now }
{
    values_have_words(&standing.vars);
    messages_have_words(standing.pending.as_slice());
}

fn standings_have_words(standings: &[Standing])
    ensures { All HasStandingWords standings.now }
{
    for standing in standings {
        standing_has_words(standing);
    }
}

/// Changes nothing: it says that the numbers of a cut have 32 bits.
pub(crate) fn cut_has_words(cut: &Cut)
    ensures { HasCutWords cut.now }
{
    standings_have_words(cut.federates.as_slice());
}
