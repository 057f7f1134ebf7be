// The functions of `yewdome` for C: each export calls the one of its name and states its clauses again.
#![tactic(auto)]

ghost use Rattle.std.specs.Prelude.{◌≡◌};
ghost use Rattle.page_writer.specs.IndexState.{no_index, an_index};
ghost use Rattle.yewdome.specs.Interface.{party_read, party_parse, party_parse_with_variant, profile_read, profile_parse, profile_parse_with_variant, party_measure, party_place, page_read, kept_read_code, kept_parse_code, kept_variant_code, page_kept, page_look_up, page_body, page_add, page_add_index, page_close, page_answers, page_file};

use page_reader::index::INDEX_SIZE;

// Reads a body by the option at a place in the table, 0 to 10, and stores the record.
#[unsafe(no_mangle)]
pub extern "C" fn yewdome_party_read(option: u8, body: &[u8], record: &mut [u8]) -> u32
    ensures { (record { code = result; bytes = «record».new }) ≡ party_read option body.now «record».old }
{
    yewdome::yewdome_party_read(option, body, record)
}

// Reads a body by the choice at a place, 0 to 6 in document 01's order, which detects the option, and stores the record.
#[unsafe(no_mangle)]
pub extern "C" fn yewdome_party_parse(choice: u8, body: &[u8], record: &mut [u8]) -> u32
    ensures { (record { code = result; bytes = «record».new }) ≡ party_parse choice body.now «record».old }
{
    yewdome::yewdome_party_parse(choice, body, record)
}

// The same by a letter, 0 for none.
#[unsafe(no_mangle)]
pub extern "C" fn yewdome_party_parse_with_variant(
    choice: u8,
    body: &[u8],
    letter: u8,
    record: &mut [u8],
) -> u32
    ensures { (record { code = result; bytes = «record».new }) ≡ party_parse_with_variant choice body.now letter «record».old }
{
    yewdome::yewdome_party_parse_with_variant(choice, body, letter, record)
}

// Reads a body by the option at a place under the network profile, and stores the record.
#[unsafe(no_mangle)]
pub extern "C" fn yewdome_profile_read(option: u8, body: &[u8], record: &mut [u8]) -> u32
    ensures { (record { code = result; bytes = «record».new }) ≡ profile_read option body.now «record».old }
{
    yewdome::yewdome_profile_read(option, body, record)
}

// The same by the choice at a place, which detects the option.
#[unsafe(no_mangle)]
pub extern "C" fn yewdome_profile_parse(choice: u8, body: &[u8], record: &mut [u8]) -> u32
    ensures { (record { code = result; bytes = «record».new }) ≡ profile_parse choice body.now «record».old }
{
    yewdome::yewdome_profile_parse(choice, body, record)
}

// The same by a letter, 0 for none.
#[unsafe(no_mangle)]
pub extern "C" fn yewdome_profile_parse_with_variant(
    choice: u8,
    body: &[u8],
    letter: u8,
    record: &mut [u8],
) -> u32
    ensures { (record { code = result; bytes = «record».new }) ≡ profile_parse_with_variant choice body.now letter «record».old }
{
    yewdome::yewdome_profile_parse_with_variant(choice, body, letter, record)
}

// Measures a stored record: gives the length of its field.
#[unsafe(no_mangle)]
pub extern "C" fn yewdome_party_measure(record: &[u8]) -> u32
    ensures { result ≡ party_measure «record».now }
{
    yewdome::yewdome_party_measure(record)
}

// Places the field of a stored record at the start of a buffer, and gives its length. It measures for itself.
#[unsafe(no_mangle)]
pub extern "C" fn yewdome_party_place(record: &[u8], buf: &mut [u8]) -> u32
    ensures { (record { code = result; bytes = buf.new }) ≡ party_place «record».now buf.old }
{
    yewdome::yewdome_party_place(record, buf)
}

// Reads the page at a position and stores the record that it gives; the end changes no byte. Gives the number × 4,294,967,296, 65,536 more
// at the end, and how many bytes the read moved past, 0 at 17, 18, 21 and 42.
#[unsafe(no_mangle)]
pub extern "C" fn yewdome_page_read(page: &[u8], at: usize, record: &mut [u8]) -> u64
    ensures { (record { code = result; bytes = «record».new }) ≡ page_read page.now at «record».old }
{
    yewdome::yewdome_page_read(page, at, record)
}

// Looks up field k of a page, counted from 1, in an index and stores the record that it gives. Gives what `yewdome_page_read` does at the
// field's position; at 18, 31, 21 and 42 no byte is moved past.
#[unsafe(no_mangle)]
pub extern "C" fn yewdome_page_look_up(
    page: &[u8],
    index: &[u32; INDEX_SIZE],
    k: usize,
    record: &mut [u8],
) -> u64
    ensures { (record { code = result; bytes = «record».new }) ≡ page_look_up page.now index.now k «record».old }
{
    yewdome::yewdome_page_look_up(page, index, k, record)
}

// The place in the page of the body of the field at a position × 4,294,967,296, and its length; 0 where there is no field, or its tag is none
// of the eleven.
#[unsafe(no_mangle)]
pub extern "C" fn yewdome_page_body(page: &[u8], at: usize) -> u64
    ensures { result ≡ page_body page.now at }
{
    yewdome::yewdome_page_body(page, at)
}

// Adds a stored record to the page in a buffer at a position, and gives the position after.
#[unsafe(no_mangle)]
pub extern "C" fn yewdome_page_add(record: &[u8], buf: &mut [u8], position: usize) -> u32
    ensures { (record { code = result; bytes = buf.new }) ≡ page_add «record».now buf.old position no_index }
{
    yewdome::yewdome_page_add(record, buf, position)
}

// Adds a stored record to the page with an index in a buffer at a position, notes its entry, and gives the position after.
#[unsafe(no_mangle)]
pub extern "C" fn yewdome_page_add_indexed(
    record: &[u8],
    buf: &mut [u8],
    position: usize,
    index: &mut [u32; INDEX_SIZE],
) -> u32
    ensures buf_after { (record { code = result; bytes = buf.new }) ≡ page_add «record».now buf.old position (an_index index.old) }
    ensures index { an_index index.new ≡ page_add_index «record».now buf.old position (an_index index.old) }
{
    yewdome::yewdome_page_add_indexed(record, buf, position, index)
}

// Closes the page in a buffer at a position, and gives the page's length.
#[unsafe(no_mangle)]
pub extern "C" fn yewdome_page_close(buf: &mut [u8], position: usize) -> u32
    ensures { (record { code = result; bytes = buf.new }) ≡ page_close buf.old position }
{
    yewdome::yewdome_page_close(buf, position)
}

// By which causes the written body of what an option reads is other bytes than the body, 0 where it is the very body; or the refusal.
#[unsafe(no_mangle)]
pub extern "C" fn yewdome_kept_read(option: u8, body: &[u8]) -> u32
    ensures { result ≡ kept_read_code option body.now }
{
    yewdome::yewdome_kept_read(option, body)
}

// The same by a choice, which detects the option.
#[unsafe(no_mangle)]
pub extern "C" fn yewdome_kept_parse(choice: u8, body: &[u8]) -> u32
    ensures { result ≡ kept_parse_code choice body.now }
{
    yewdome::yewdome_kept_parse(choice, body)
}

// The same by a choice and a letter, 0 for none.
#[unsafe(no_mangle)]
pub extern "C" fn yewdome_kept_parse_with_variant(choice: u8, body: &[u8], letter: u8) -> u32
    ensures { result ≡ kept_variant_code choice body.now letter }
{
    yewdome::yewdome_kept_parse_with_variant(choice, body, letter)
}

// What `yewdome_page_read` gives at a position and, where that is a record, which is stored nowhere, the causes of its field × 131,072.
#[unsafe(no_mangle)]
pub extern "C" fn yewdome_page_kept(page: &[u8], at: usize) -> u64
    ensures { result ≡ page_kept page.now at }
{
    yewdome::yewdome_page_kept(page, at)
}

// Reads the page from its start to the last read, and stores what `yewdome_page_read` gives of each. Gives how many there are.
#[unsafe(no_mangle)]
pub extern "C" fn yewdome_page_answers(page: &[u8], answers: &mut [u64]) -> u32
    ensures { (record { code = result; answers = answers.new }) ≡ page_answers page.now answers.old }
{
    yewdome::yewdome_page_answers(page, answers)
}

// Files the records that a page's reads give on a new page in the buffer, and closes that. Stores the answers as `yewdome_page_answers` does, but
// that of a record which is filed has the causes that `yewdome_page_kept` gives, and that of one which is not is the refusal to add it. Gives
// how many there are × 4,294,967,296, and the new page's length, or the refusal to close it.
#[unsafe(no_mangle)]
pub extern "C" fn yewdome_page_file(page: &[u8], buf: &mut [u8], answers: &mut [u64]) -> u64
    ensures { (record { code = result; bytes = buf.new; answers = answers.new }) ≡ page_file page.now buf.old answers.old }
{
    yewdome::yewdome_page_file(page, buf, answers)
}
