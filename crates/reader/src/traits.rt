// The Rust's trait `SwiftField`, by the option or the choice that a type is.
ghost use Rattle.std.specs.Prelude.{◌≡◌};
ghost use Rattle.party.specs.declared.PartyOption.{PartyOption};
ghost use Rattle.reader.specs.Reading.{told_answer};
ghost use Rattle.reader.specs.Options.{read as read_of};
ghost use Rattle.reader.specs.declared.choices.Choice.{Choice};
ghost use Rattle.reader.specs.Choices.{parse as parse_of, parse_with_variant};

use crate::choices::Choice;
use crate::{choices, read};
use errors::ParseError;
use party::{Party, PartyOption};

// A type that is one option.
pub trait SwiftField {
    const OPTION: PartyOption;

    ghost OPTION: { PartyOption };

    // The reader of the option.
    fn parse(input: &[u8]) -> Result<Party, ParseError>
        ensures { told_answer result ≡ read_of OPTION input.now }
    {
        read(Self::OPTION, input)
    }
}

// A type that is a choice among options.
pub trait SwiftChoice {
    const CHOICE: Choice;

    ghost CHOICE: { Choice };

    // Detects.
    fn parse(input: &[u8]) -> Result<Party, ParseError>
        ensures { told_answer result ≡ parse_of CHOICE input.now }
    {
        choices::parse(Self::CHOICE, input)
    }

    // By a letter, 0 for none.
    fn parse_with_variant(input: &[u8], letter: u8) -> Result<Party, ParseError>
        ensures { told_answer result ≡ parse_with_variant CHOICE input.now letter }
    {
        choices::parse_with_variant(Self::CHOICE, input, letter)
    }
}
