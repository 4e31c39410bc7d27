//! The items of an answer, printed on a page. They end the line of the command that was answered
//! (docs/MEMORY.md, section 14).
#![tactic(auto, using(crate::proofs::Words::words_ended, figures::proofs::Printing::room_after))]

ghost use Rattle.std.specs.Prelude.{◌≡◌};
ghost use Rattle.calls.specs.Answers.{entry_for, search_for, answer_for};
ghost use Rattle.figures.specs.Pieces.{piece_bytes};
ghost use Rattle.figures.specs.Sheet.{HasRoom, Prints};
ghost use Rattle.answers.specs.Items.{line_end, entry_text, counted_bytes, answer_items};

use calls::{Answer, Entry, Search};
use checks::Refusal;
use figures::Piece::{Decimal, Text, Words};
use figures::{Page, Piece};

// The entry that an address has or had.
fn entry_piece(entry: Entry) -> Piece<'static>
    ensures { piece_bytes result ≡ entry_text (entry_for entry) }
{
    match entry {
        Some(pattern) => Decimal(pattern),
        None => Text("-"),
    }
}

// What a first-match found, and its counts.
fn put_counted(page: &mut Page, found: &[Piece], words_read: u16, entries_compared: u16)
    requires { HasRoom page.old (counted_bytes found.now words_read entries_compared) }
    ensures { Prints page.old page.new (counted_bytes found.now words_read entries_compared) }
{
    page.print(found);
    page.print(&[
        Text(" w "),
        Decimal(u32::from(words_read)),
        Text(" c "),
        Decimal(u32::from(entries_compared)),
        Text("\n"),
    ])
}

// The answer of a first-match: the address or none, and the counts.
fn put_search(page: &mut Page, found: Search)
    requires { HasRoom page.old (line_end (answer_items (search_for found))) }
    ensures { Prints page.old page.new (line_end (answer_items (search_for found))) }
{
    match found.address {
        Some(address) => {
            let at = [Text(" at "), Decimal(address.number())];
            put_counted(page, &at, found.words_read, found.entries_compared)
        }
        None => put_counted(
            page,
            &[Text(" none")],
            found.words_read,
            found.entries_compared,
        ),
    }
}

/// Prints an answer behind the number of its command, with the newline that ends the line. The
/// match word is that of an accepted all-match, and any other answer leaves it out.
pub fn put_items(page: &mut Page, answer: Result<Answer, Refusal>, matches: &[u64])
    requires { HasRoom page.old (line_end (answer_items (answer_for answer matches.now))) }
    ensures { Prints page.old page.new (line_end (answer_items (answer_for answer matches.now))) }
{
    match answer {
        Err(why) => page.print(&[Text(" no "), Decimal(u32::from(why)), Text("\n")]),
        Ok(Answer::Cleared) => page.put(Text(" clear\n")),
        Ok(Answer::Held(entry)) => page.print(&[Text(" was "), entry_piece(entry), Text("\n")]),
        Ok(Answer::Searched(found)) => put_search(page, found),
        Ok(Answer::Next(Some(address))) => page.print(&[
            Text(" at "),
            Decimal(address.number()),
            Text("\n"),
        ]),
        Ok(Answer::Next(None)) => page.put(Text(" none\n")),
        Ok(Answer::Matched { hits }) => page.print(&[
            Text(" hits "),
            Decimal(hits),
            Words(matches),
            Text("\n"),
        ]),
    }
}
