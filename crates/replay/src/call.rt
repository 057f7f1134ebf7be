// What a line of the list calls, by its first field. tests/README.md has the numbers.
use crate::cases::Reader;
use crate::count::Difference;
use crate::list::Line;
use crate::pages::Way;

#[derive(Clone, Copy)]
pub enum Call {
    ReadBody(Reader),
    Define,
    Begin,
    Add(Way),
    Close,
    ReadPage(Way),
    Overwrite,
    Say,
}

impl TryFrom<Line<'_>> for Call {
    type Error = Difference;

    fn try_from(line: Line<'_>) -> Result<Call, Difference> {
        let place = line.byte(1);
        match line.number(0) {
            0 => Ok(Call::ReadBody(Reader::ByOption(place))),
            1 => Ok(Call::ReadBody(Reader::ByChoice(place))),
            2 => Ok(Call::ReadBody(Reader::ByVariant {
                choice: place,
                letter: line.byte(2),
            })),
            3 => Ok(Call::Define),
            4 => Ok(Call::Begin),
            5 => Ok(Call::Add(Way::Plain)),
            6 => Ok(Call::Add(Way::Indexed)),
            7 => Ok(Call::Close),
            8 => Ok(Call::ReadPage(Way::Plain)),
            9 => Ok(Call::ReadPage(Way::Indexed)),
            10 => Ok(Call::Overwrite),
            11 => Ok(Call::Say),
            _ => Err(Difference::Malformed),
        }
    }
}
