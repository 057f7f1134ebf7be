// The three options of field 59 and the two choices among them, ported from field59.rs of swift-mt-message.
#![tactic(auto)]

ghost use Rattle.party.specs.declared.PartyOption.{PartyOption};
ghost use Rattle.reader.specs.declared.choices.Choice.{Choice};

use party::PartyOption;
use reader::choices::Choice;
pub use reader::traits::{SwiftChoice, SwiftField};

// Party identifier or none, and numbered lines.
#[derive(Clone, Copy)]
pub struct Field59F {}

impl SwiftField for Field59F {
    const OPTION: PartyOption = PartyOption::Field59F;

    ghost OPTION = { PartyOption.Field59F };
}

// Account or none, and a BIC.
#[derive(Clone, Copy)]
pub struct Field59A {}

impl SwiftField for Field59A {
    const OPTION: PartyOption = PartyOption::Field59A;

    ghost OPTION = { PartyOption.Field59A };
}

// Account or none, and name and address.
#[derive(Clone, Copy)]
pub struct Field59NoOption {}

impl SwiftField for Field59NoOption {
    const OPTION: PartyOption = PartyOption::Field59NoOption;

    ghost OPTION = { PartyOption.Field59NoOption };
}

// A, F or 59.
#[derive(Clone, Copy)]
pub struct Field59 {}

impl SwiftChoice for Field59 {
    const CHOICE: Choice = Choice::Field59;

    ghost CHOICE = { Choice.Field59 };
}

// A or 59.
#[derive(Clone, Copy)]
pub struct Field59Debtor {}

impl SwiftChoice for Field59Debtor {
    const CHOICE: Choice = Choice::Field59Debtor;

    ghost CHOICE = { Choice.Field59Debtor };
}
