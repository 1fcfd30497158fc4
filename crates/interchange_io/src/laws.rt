//! What holds of every file, by the definitions alone.
ghost use Rattle.std.specs.Prelude.{◌≡◌, ◌≢◌, ℕ, List, AllPairs, Ok};
ghost use Rattle.std.specs.Map.{keys_of};
ghost use Rattle.edge_kit.specs.declared.bytes.PubKey.{PubKey};
ghost use Rattle.slash_defs.specs.declared.book.Book.{Book};
ghost use Rattle.slash_defs.specs.declared.book.File.{File};
ghost use Rattle.interchange_io.specs.Contents.{HoldSame, AreInWrittenOrder, IsUnited};
ghost use Rattle.interchange_io.specs.Reading.{file_of};
ghost use Rattle.interchange_io.specs.United.{united};
ghost use Rattle.interchange_io.specs.WrittenOrder.{canonical};

/// In the written order of a file the keys ascend byte by byte and each key's blocks and votes ascend in
/// file order, so that none stands twice, and it lists the same keys, blocks and votes as the file.
pub fn written_order()
    ensures in_order { (file : File) → AreInWrittenOrder (canonical file).books }
    ensures holds_same { (file : File) → HoldSame file.books (canonical file).books }
{}

/// A file that was read lists each key once.
pub fn files_list_once()
    ensures { (bytes : List ℕ) (file : File) → file_of bytes ≡ Ok file → AllPairs (λ a b. a ≢ b) (keys_of file.books) }
{}

/// Of books in which a key may stand more than once, the united books have each key once, at its first
/// place, with all that is listed for it, in order.
pub fn united_books()
    ensures { (books : List (PubKey × Book)) → IsUnited books (united books) }
{}
