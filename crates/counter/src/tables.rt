// The call that writes every small file table.
ghost use Rattle.std.specs.Prelude.{◌≡◌, length};
ghost use Rattle.small_tables.specs.Tables.{small_tables_answer, small_tables_list};
ghost use Rattle.counter.specs.Replies.{reply, reply_of, one_word};

use crate::answer::give;

#[unsafe(no_mangle)]
pub extern "C" fn counter_small_tables(entries: u32, list: &mut [u8], answer: &mut u32) -> u32
    ensures answer { reply result (one_word answer.new)
        ≡ reply_of one_word (one_word answer.old) (small_tables_answer entries (length list.old)) }
    ensures list_after { list.new ≡ small_tables_list entries list.old }
{
    give(answer, small_tables::small_tables(entries, list))
}
