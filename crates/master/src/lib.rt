// A master made from a wish list: judged, placed, and written whole.
#![tactic(auto)]

ghost use Rattle.std.specs.Prelude.{◌≡◌, ◌+◌, ◌<◌, ◌≤◌, Ok, Err, replicate, IfOk, IfErr, OnOk, length};
ghost use Rattle.endian.specs.Bytes.{put};
ghost use Rattle.header.specs.Header.{put_header};
ghost use Rattle.opened.specs.Opening.{zeros};
ghost use Rattle.master.specs.Master.{header_with, master_verdict, written_master, image_with_master};
ghost use Rattle.master.specs.Asked.{wished, master_of};
ghost use Rattle.master.specs.Theorem.{TreeIsWishList, EachIsFound, RefusedExactly};
ghost use Rattle.master.specs.Theorem.{NewMasterOpens, AnyListFollows};

use header::{DiscHeader, HEADER_LEN};
use new_table::NewTable;
use opened::Lent;
use refusal::{Refusal, Verdict};
use wish_list::WishList;

/// What is wished for.
#[derive(Clone, Copy, PartialEq, Eq, Debug)]
pub struct Master<'a> {
    /// The game code, the first four bytes of the disc.
    // Kept: an array: the header has four bytes for it (C).
    pub game_code: [u8; 4],
    /// The disc end in bytes, which is the header's user size.
    pub disc_end: u32,
    /// The size of each file in bytes.
    pub sizes: &'a [u32],
    /// The path of each file, in rising byte order, ended by a zero byte.
    pub paths: &'a [u8],
}

// Writes zeros below the disc end, and the header.
#[tactic(auto, unfolding(crate::specs::Master::header_with))]
fn write_blank(image: &mut [u8], game_code: [u8; 4], disc_end: u32, table_size: u32) -> Verdict
    requires header { 0x440 ≤ disc_end }
    requires room { disc_end ≤ length image.old }
    ensures answer { result ≡ Ok tt }
    ensures image_after { let blank = put image.old 0 (replicate disc_end 0) in
        image.new ≡ put_header (header_with game_code disc_end table_size) blank }
{
    endian::fill(image, 0, disc_end as usize, 0);
    let header = DiscHeader {
        game_code,
        fst_offset: HEADER_LEN as u32,
        fst_size: table_size,
        user_size: disc_end,
        ..DiscHeader::new()
    };
    header.write_to(image)
}

impl<'a> Master<'a> {
    // The table of a list that is granted, where so many bytes of an image, words and working bytes are
    // lent.
    fn judge(self, room: usize, words: usize, bytes: usize) -> Result<NewTable<'a>, Refusal>
        ensures granted { let master = master_of self.entry in
            OnOk result (master_verdict master room words bytes ≡ Ok tt) }
        ensures refused { let master = master_of self.entry in
            IfErr result (λ cause. master_verdict master room words bytes ≡ Err cause) }
        ensures paths { IfOk result (λ table. table.paths.now ≡ self.entry.paths.now) }
        ensures sizes { IfOk result (λ table. table.sizes.now ≡ self.entry.sizes.now) }
    {
        let list = WishList::new(self.paths, self.sizes)?;
        let table = NewTable::measure(&list, words)?;
        let size = table.size();
        let table_end = (HEADER_LEN + size) as u32;
        if bytes < size || room < self.disc_end as usize {
            return Err(Refusal::LimitOrMemory);
        }
        if !placement::is_placeable(table_end, self.disc_end, self.sizes) {
            return Err(Refusal::NotEnoughSpace);
        }
        Ok(table)
    }
}

// Writes the image of a list that is granted. The offsets go into the words, a draft of the table into the
// bytes.
// Kept: one by one: that the disc end fits 4 bytes the proof knows of a parameter, not of a field (P).
fn write_granted(
    image: &mut [u8],
    game_code: [u8; 4],
    disc_end: u32,
    table: &NewTable<'_>,
    words: &mut [u32],
    bytes: &mut [u8],
) -> Verdict
    requires { let list = table.now in
        let asked = wished game_code disc_end list.sizes.now list.paths.now in
        master_verdict asked (length image.old) (length words.old) (length bytes.old) ≡ Ok tt }
    ensures answer { result ≡ Ok tt }
    ensures image_after { let list = table.now in
        let asked = wished game_code disc_end list.sizes.now list.paths.now in
        image.new ≡ written_master asked image.old }
{
    let size = table.size();
    let sizes = table.sizes;
    placement::place((HEADER_LEN + size) as u32, sizes, words);
    write_blank(image, game_code, disc_end, size as u32)?;
    table.write(&words[..sizes.len()], bytes, &mut image[HEADER_LEN..]);
    Ok(())
}

/// Writes a fresh image over what the buffer holds below the disc end: the header, with the game code, the
/// GameCube magic, FST offset 0x440, the FST size and the disc end as user size; the table; and 0 in every
/// other byte. What is behind the disc end stays.
///
/// Refuses, with the image as it was: 8 where not exactly one path is ended by a zero byte for each size;
/// path by path 9 over 1,024 bytes, 13 and 12 for a name in it, 19 where it is not behind the path before it
/// or uses an earlier file as a directory; 9 for the limits of the new tree, for too few words (4 for each
/// entry, and 8) or working bytes (the table's size), and for a buffer that is shorter than the disc end; 21
/// exactly where header, table and files, each on a multiple of 0x8000, fit in no way. Words and bytes are
/// zero afterwards.
pub fn write_master(
    image: &mut [u8],
    master: Master<'_>,
    words: &mut [u32],
    bytes: &mut [u8],
) -> Verdict
    ensures answer { let asked = master_of master.entry in
        result ≡ master_verdict asked (length image.old) (length words.old) (length bytes.old) }
    ensures image_after { let asked = master_of master.entry in
        image.new ≡ image_with_master asked image.old (length words.old) (length bytes.old) }
    ensures words_zero { words.new ≡ zeros words.old }
    ensures bytes_zero { bytes.new ≡ zeros bytes.old }
{
    let words = Lent::new(words);
    let bytes = Lent::new(bytes);
    let table = master.judge(image.len(), words.memory.len(), bytes.memory.len())?;
    write_granted(
        image,
        master.game_code,
        master.disc_end,
        &table,
        words.memory,
        bytes.memory,
    )
}

// ---- The theorems about every new master, each the promise of a function that does nothing: what they say
// is in specs/Theorem.antt, and why they hold in proofs/Laws/.

// Its tree is the wish list: the files in their order, each directory before its first file, and no other.
pub fn tree_is_wish_list()
    ensures { TreeIsWishList }
{}

// Each path leads to its file.
pub fn each_is_found()
    ensures { EachIsFound }
{}

// Where nothing else is due, it is refused for its space exactly if no offsets at all will do.
pub fn refused_exactly()
    ensures { RefusedExactly }
{}

// It opens with the words that were lent, and shows what was wished for.
pub fn new_master_opens()
    ensures { NewMasterOpens }
{}

// Any list of edits may follow, with all that is promised of one.
pub fn any_list_follows()
    ensures { AnyListFollows }
{}
