// The eight options of field 50 and the five choices among them, ported from field50.rs of swift-mt-message.
#![tactic(auto)]

ghost use Rattle.party.specs.declared.PartyOption.{PartyOption};
ghost use Rattle.reader.specs.declared.choices.Choice.{Choice};

use party::PartyOption;
use reader::choices::Choice;
pub use reader::traits::{SwiftChoice, SwiftField};

// Name and address only.
#[derive(Clone, Copy)]
pub struct Field50NoOption {}

impl SwiftField for Field50NoOption {
    const OPTION: PartyOption = PartyOption::Field50NoOption;

    ghost OPTION = { PartyOption.Field50NoOption };
}

// Party identifier or none, and a BIC.
#[derive(Clone, Copy)]
pub struct Field50A {}

impl SwiftField for Field50A {
    const OPTION: PartyOption = PartyOption::Field50A;

    ghost OPTION = { PartyOption.Field50A };
}

// Party identifier and numbered lines.
#[derive(Clone, Copy)]
pub struct Field50F {}

impl SwiftField for Field50F {
    const OPTION: PartyOption = PartyOption::Field50F;

    ghost OPTION = { PartyOption.Field50F };
}

// Account or none, and name and address.
#[derive(Clone, Copy)]
pub struct Field50K {}

impl SwiftField for Field50K {
    const OPTION: PartyOption = PartyOption::Field50K;

    ghost OPTION = { PartyOption.Field50K };
}

// A BIC only.
#[derive(Clone, Copy)]
pub struct Field50C {}

impl SwiftField for Field50C {
    const OPTION: PartyOption = PartyOption::Field50C;

    ghost OPTION = { PartyOption.Field50C };
}

// Party identifier only.
#[derive(Clone, Copy)]
pub struct Field50L {}

impl SwiftField for Field50L {
    const OPTION: PartyOption = PartyOption::Field50L;

    ghost OPTION = { PartyOption.Field50L };
}

// Account and a BIC.
#[derive(Clone, Copy)]
pub struct Field50G {}

impl SwiftField for Field50G {
    const OPTION: PartyOption = PartyOption::Field50G;

    ghost OPTION = { PartyOption.Field50G };
}

// Account and name and address.
#[derive(Clone, Copy)]
pub struct Field50H {}

impl SwiftField for Field50H {
    const OPTION: PartyOption = PartyOption::Field50H;

    ghost OPTION = { PartyOption.Field50H };
}

// C or L.
#[derive(Clone, Copy)]
pub struct Field50InstructingParty {}

impl SwiftChoice for Field50InstructingParty {
    const CHOICE: Choice = Choice::Field50InstructingParty;

    ghost CHOICE = { Choice.Field50InstructingParty };
}

// F, G or H.
#[derive(Clone, Copy)]
pub struct Field50OrderingCustomerFGH {}

impl SwiftChoice for Field50OrderingCustomerFGH {
    const CHOICE: Choice = Choice::Field50OrderingCustomerFGH;

    ghost CHOICE = { Choice.Field50OrderingCustomerFGH };
}

// A, F or K.
#[derive(Clone, Copy)]
pub struct Field50OrderingCustomerAFK {}

impl SwiftChoice for Field50OrderingCustomerAFK {
    const CHOICE: Choice = Choice::Field50OrderingCustomerAFK;

    ghost CHOICE = { Choice.Field50OrderingCustomerAFK };
}

// 50, C or F.
#[derive(Clone, Copy)]
pub struct Field50OrderingCustomerNCF {}

impl SwiftChoice for Field50OrderingCustomerNCF {
    const CHOICE: Choice = Choice::Field50OrderingCustomerNCF;

    ghost CHOICE = { Choice.Field50OrderingCustomerNCF };
}

// A or K.
#[derive(Clone, Copy)]
pub struct Field50Creditor {}

impl SwiftChoice for Field50Creditor {
    const CHOICE: Choice = Choice::Field50Creditor;

    ghost CHOICE = { Choice.Field50Creditor };
}

// The Rust's alias, for its most common use.
pub type Field50 = Field50OrderingCustomerNCF;
