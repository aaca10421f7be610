// The records of a sheet, one by one.
ghost use Rattle.std.specs.Prelude.{◌≡◌};
ghost use Rattle.framing.specs.Frames.{shown};
ghost use Rattle.sheets.specs.Sheet.{kind_number, KindOf, body_read, setting_read};

use framing::{Parsed, first_frame};
use numerals::{long_at, word_at};
use plant::{Reason, Refusal};
use plantformat::UnlistedKind;

// What a record of a sheet says.
#[derive(Clone, Copy, Debug, PartialEq, Eq)]
pub enum Setting {
    // A position of a side is closed.
    Close { side: usize, position: usize },
    // A side gets a ceiling.
    Lower { side: usize, ceiling: u32 },
}

// The kinds of record that a sheet may hold.
#[derive(Clone, Copy, Debug, PartialEq, Eq)]
pub(crate) enum SettingKind {
    Close,
    Lower,
}

// The kind with a number, if it is listed.
impl TryFrom<u16> for SettingKind {
    type Error = UnlistedKind;

    ghost try_from_gives = { KindOf };

    fn try_from(number: u16) -> Result<SettingKind, UnlistedKind> {
        match number {
            20 => Ok(SettingKind::Close),
            21 => Ok(SettingKind::Lower),
            _ => Err(UnlistedKind(number)),
        }
    }
}

// What a body says, by its kind. A body of another size is refused.
fn read_body(kind: SettingKind, body: &[u8], at: usize) -> Result<Setting, Refusal>
    ensures { result ≡ body_read at (kind_number kind) body.now }
{
    match (kind, body.len()) {
        (SettingKind::Close, 4) => Ok(Setting::Close {
            side: word_at(body, 0),
            position: word_at(body, 2),
        }),
        (SettingKind::Lower, 6) => Ok(Setting::Lower {
            side: word_at(body, 0),
            ceiling: long_at(body, 2),
        }),
        _ => Err(Refusal::new(Reason::Size, at)),
    }
}

// The setting of the first record of `bytes`, which lies at the place `at` of the sheet.
pub(crate) fn first_setting<'a>(bytes: &'a [u8], at: usize) -> Result<Parsed<'a, Setting>, Refusal>
    ensures { shown (λ setting. setting) result ≡ setting_read at bytes.now }
{
    let frame = first_frame::<SettingKind>(bytes, at)?;
    let value = read_body(frame.kind, frame.body, at)?;
    Ok(Parsed {
        value,
        rest: frame.rest,
    })
}
