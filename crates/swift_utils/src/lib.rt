// The classes of bytes, parse_swift_chars, parse_account and parse_bic, ported from swift_utils.rs of swift-mt-message.
#![tactic(auto)]

ghost use Rattle.std.specs.Prelude.{◌≡◌};
ghost use Rattle.errors.specs.Refusals.{told};
ghost use Rattle.swift_utils.specs.Bytes.{legal, digit, alphanumeric, all};
ghost use Rattle.swift_utils.specs.Checks.{parse_swift_chars, parse_length, parse_account, bic_length, parse_bic};
ghost use Rattle.swift_utils.specs.Classes.{in_classes, class_table, entry_in};

use errors::ParseError;

// The classes of bytes, a bit each: the legal ones, those of them that are no LF, the network profile's, letters and digits, letters, digits,
// small letters.
pub const LEGAL: u8 = 1;

pub const PLAIN: u8 = 2;

pub const NARROW: u8 = 4;

pub const ALPHANUMERIC: u8 = 8;

pub const LETTER: u8 = 16;

pub const DIGIT: u8 = 32;

pub const SMALL: u8 = 64;

// The classes of each byte: 0 an illegal one, 1 LF, 3 any other legal one outside the network profile, 7 space and the profile's signs, 47 a
// digit, 31 a capital, 95 a small letter.
static CLASSES: [u8; 256] = [
    0, // 0
    0, // 1
    0, // 2
    0, // 3
    0, // 4
    0, // 5
    0, // 6
    0, // 7
    0, // 8
    0, // 9
    1, // 10 LF
    0, // 11
    0, // 12
    3, // 13 CR
    0, // 14
    0, // 15
    0, // 16
    0, // 17
    0, // 18
    0, // 19
    0, // 20
    0, // 21
    0, // 22
    0, // 23
    0, // 24
    0, // 25
    0, // 26
    0, // 27
    0, // 28
    0, // 29
    0, // 30
    0, // 31
    7, // 32 space
    3, // 33 !
    3, // 34 "
    3, // 35 #
    3, // 36 $
    3, // 37 %
    3, // 38 &
    7, // 39 '
    7, // 40 (
    7, // 41 )
    3, // 42 *
    7, // 43 +
    7, // 44 ,
    7, // 45 -
    7, // 46 .
    7, // 47 /
    47, // 48 0
    47, // 49 1
    47, // 50 2
    47, // 51 3
    47, // 52 4
    47, // 53 5
    47, // 54 6
    47, // 55 7
    47, // 56 8
    47, // 57 9
    7, // 58 :
    3, // 59 ;
    3, // 60 <
    3, // 61 =
    3, // 62 >
    7, // 63 ?
    3, // 64 @
    31, // 65 A
    31, // 66 B
    31, // 67 C
    31, // 68 D
    31, // 69 E
    31, // 70 F
    31, // 71 G
    31, // 72 H
    31, // 73 I
    31, // 74 J
    31, // 75 K
    31, // 76 L
    31, // 77 M
    31, // 78 N
    31, // 79 O
    31, // 80 P
    31, // 81 Q
    31, // 82 R
    31, // 83 S
    31, // 84 T
    31, // 85 U
    31, // 86 V
    31, // 87 W
    31, // 88 X
    31, // 89 Y
    31, // 90 Z
    3, // 91 [
    0, // 92 \
    3, // 93 ]
    0, // 94 ^
    3, // 95 _
    0, // 96 `
    95, // 97 a
    95, // 98 b
    95, // 99 c
    95, // 100 d
    95, // 101 e
    95, // 102 f
    95, // 103 g
    95, // 104 h
    95, // 105 i
    95, // 106 j
    95, // 107 k
    95, // 108 l
    95, // 109 m
    95, // 110 n
    95, // 111 o
    95, // 112 p
    95, // 113 q
    95, // 114 r
    95, // 115 s
    95, // 116 t
    95, // 117 u
    95, // 118 v
    95, // 119 w
    95, // 120 x
    95, // 121 y
    95, // 122 z
    3, // 123 {
    3, // 124 |
    3, // 125 }
    0, // 126 ~
    0, // 127
    0, // 128
    0, // 129
    0, // 130
    0, // 131
    0, // 132
    0, // 133
    0, // 134
    0, // 135
    0, // 136
    0, // 137
    0, // 138
    0, // 139
    0, // 140
    0, // 141
    0, // 142
    0, // 143
    0, // 144
    0, // 145
    0, // 146
    0, // 147
    0, // 148
    0, // 149
    0, // 150
    0, // 151
    0, // 152
    0, // 153
    0, // 154
    0, // 155
    0, // 156
    0, // 157
    0, // 158
    0, // 159
    0, // 160
    0, // 161
    0, // 162
    0, // 163
    0, // 164
    0, // 165
    0, // 166
    0, // 167
    0, // 168
    0, // 169
    0, // 170
    0, // 171
    0, // 172
    0, // 173
    0, // 174
    0, // 175
    0, // 176
    0, // 177
    0, // 178
    0, // 179
    0, // 180
    0, // 181
    0, // 182
    0, // 183
    0, // 184
    0, // 185
    0, // 186
    0, // 187
    0, // 188
    0, // 189
    0, // 190
    0, // 191
    0, // 192
    0, // 193
    0, // 194
    0, // 195
    0, // 196
    0, // 197
    0, // 198
    0, // 199
    0, // 200
    0, // 201
    0, // 202
    0, // 203
    0, // 204
    0, // 205
    0, // 206
    0, // 207
    0, // 208
    0, // 209
    0, // 210
    0, // 211
    0, // 212
    0, // 213
    0, // 214
    0, // 215
    0, // 216
    0, // 217
    0, // 218
    0, // 219
    0, // 220
    0, // 221
    0, // 222
    0, // 223
    0, // 224
    0, // 225
    0, // 226
    0, // 227
    0, // 228
    0, // 229
    0, // 230
    0, // 231
    0, // 232
    0, // 233
    0, // 234
    0, // 235
    0, // 236
    0, // 237
    0, // 238
    0, // 239
    0, // 240
    0, // 241
    0, // 242
    0, // 243
    0, // 244
    0, // 245
    0, // 246
    0, // 247
    0, // 248
    0, // 249
    0, // 250
    0, // 251
    0, // 252
    0, // 253
    0, // 254
    0, // 255
];

// The table.
pub fn class_table() -> &'static [u8; 256]
    ensures { result.now ≡ class_table }
{
    &CLASSES
}

// Whether a byte is in all classes of a mask.
pub fn is_in(b: u8, mask: u8) -> bool
    ensures { result ≡ in_classes mask b }
{
    class_table()[b as usize] & mask == mask
}

// Whether a byte is one of the 93 legal ones.
pub fn is_legal(b: u8) -> bool
    ensures { result ≡ legal b }
{
    is_in(b, LEGAL)
}

// Whether a byte is an ASCII digit.
pub fn is_digit(b: u8) -> bool
    ensures { result ≡ digit b }
{
    is_in(b, DIGIT)
}

// Whether the entry of every byte in a table of classes has all bits of a mask. The bits that all have are gathered, and no byte ends the
// loop.
pub fn all_in(s: &[u8], classes: &[u8; 256], mask: u8) -> bool
    ensures { result ≡ all (entry_in classes.now mask) s.now }
{
    let mut common = 255;
    for b in s {
        common &= classes[*b as usize];
    }
    common & mask == mask
}

// Whether every byte is a letter or a digit.
pub fn all_alphanumeric(s: &[u8]) -> bool
    ensures { result ≡ all alphanumeric s.now }
{
    all_in(s, class_table(), ALPHANUMERIC)
}

// Legal bytes throughout, or 3 at the line that is handed in.
pub fn parse_swift_chars(input: &[u8], line: usize) -> Result<(), ParseError>
    ensures { told result ≡ parse_swift_chars line input.now }
{
    if all_in(input, class_table(), LEGAL) {
        Ok(())
    } else {
        Err(ParseError::IllegalByte(line))
    }
}

// A length from shortest to longest, or 2 at the line that is handed in.
pub fn parse_length(
    input: &[u8],
    shortest: usize,
    longest: usize,
    line: usize,
) -> Result<(), ParseError>
    ensures { told result ≡ parse_length shortest longest line input.now }
{
    if (shortest..=longest).contains(&input.len()) {
        Ok(())
    } else {
        Err(ParseError::PartyIdentifier(line))
    }
}

// An account or identifier: its length, then its bytes. The Rust tests each option's by hand; its `parse_account` is for other fields.
pub fn parse_account(
    input: &[u8],
    shortest: usize,
    longest: usize,
    line: usize,
) -> Result<(), ParseError>
    ensures { told result ≡ parse_account shortest longest line input.now }
{
    parse_length(input, shortest, longest, line)?;
    parse_swift_chars(input, line)
}

// The lengths of a BIC, without a branch code and with one.
pub const BIC_SHORT: usize = 8;

pub const BIC_LONG: usize = 11;

// Whether a BIC can be so long.
pub fn is_bic_length(n: usize) -> bool
    ensures { result ≡ bic_length n }
{
    n == BIC_SHORT || n == BIC_LONG
}

// A BIC, or 9 and then 10 at the line that is handed in.
pub fn parse_bic(input: &[u8], line: usize) -> Result<(), ParseError>
    ensures { told result ≡ parse_bic line input.now }
{
    if !is_bic_length(input.len()) {
        return Err(ParseError::BicLength(line));
    }
    let bank_and_country = &input[..6];
    if !all_in(bank_and_country, class_table(), LETTER) {
        return Err(ParseError::BicByte(line));
    }
    // Each part has a fixed length, so that its test can be unrolled.
    let is_rest_good = if input.len() == BIC_SHORT {
        all_alphanumeric(&input[6..BIC_SHORT])
    } else {
        all_alphanumeric(&input[6..BIC_LONG])
    };
    if is_rest_good {
        Ok(())
    } else {
        Err(ParseError::BicByte(line))
    }
}
