//! The records of many keys.
ghost use Rattle.std.specs.Prelude.{Bool, ◌≡◌, ◌+◌, ◌≤◌, ◌<◌, ◌↔◌, List, [], false, All, Option, None, IsSome, IsTrue, OnOk, OnErr, IfOk, IfErr, is_some, length, option_copied, if◌then◌else◌};
ghost use Rattle.std.specs.BTreeMap.{is_at};
ghost use Rattle.std.specs.Map.{keys_of};
ghost use Rattle.edge_kit.specs.declared.bytes.PubKey.{PubKey};
ghost use Rattle.protect_record.specs.Parts.{Parts, SameParts};
ghost use Rattle.protect_record.specs.Pasts.{Past, no_past};
ghost use Rattle.record_join.specs.Keys.{key_cmp, kept_of, with_key, EachKey};
ghost use Rattle.record_join.specs.BooksPasts.{BooksStand, Judges, JudgesPast, IsBeginFault, IsMergeFault, AreNew, EachOnce, KeepsOthers, own_grown, with_file, with_messages, joined, new_keys, key_limit};
ghost use Rattle.record_join.specs.KeyByKey.{AreBooks, EachTakes, StandsOf, Takes, TakesBook, TakesMessage, TakesRecord};
ghost use Rattle.record_join.specs.Preparing.{AreTaken, IsPrepared, Knows};
ghost use Rattle.record_join.specs.Taking.{AreNewIn, AreReadyFor, IsReadyFor, JudgesBy};

use crate::fault::{BeginFault, MergeFault};
use crate::fresh::{insert_new, make_fresh};
use crate::join::{join_records, prepare_records};
use crate::judgement::{Judged, JudgedAll};
use crate::limit::{new_records, over_limit};
use crate::merge::{merge_books, prepare_books};
use crate::message::{add, add_all, judge, judge_all};
use crate::room::take_out;
use edge_kit::{Items, PubKey};
use protect_record::Record;
use slash_defs::{Book, File, Message};
use std::alloc::{AllocError, Global};
use std::collections::BTreeMap;
use std::collections::btree_map::Iter;
use std::marker::Model;

/// Keys in order, each once.
pub type Keys = Items<PubKey>;

/// Keys that were not kept before they were made ready, each once.
pub type Fresh = Items<PubKey>;

/// The protection records of at most 65,536 keys. Contracts see each key with what its record keeps, in key
/// order, each key once.
#[derive(Drop)]
pub struct Books {
    alloc: Global,
    kept: BTreeMap<PubKey, Record>,
}

impl Model for Books {
    ghost use Rattle.std.specs.Prelude.{◌≤◌, List, length};
    ghost use Rattle.edge_kit.specs.declared.bytes.PubKey.{PubKey};
    ghost use Rattle.protect_record.specs.Parts.{Parts};
    ghost use Rattle.record_join.specs.BooksPasts.{key_limit};

    ghost Value = { List (PubKey × Parts) };

    ghost view = { λ b. b.kept.entries };

    ghost invariant = { λ b. length b.kept.entries ≤ key_limit };
}

impl Books {
    /// No key. Takes no memory.
    pub fn new(alloc: Global) -> Self
        ensures { result ≡ [] }
    {
        Books {
            alloc,
            kept: BTreeMap::new(alloc),
        }
    }

    /// The record of a key, if one is kept. Takes no memory.
    pub fn get(&self, key: &PubKey) -> Option<&Record>
        ensures { option_copied result ≡ kept_of self.now key.now }
    {
        self.kept.get(key)
    }

    /// How many keys are kept. Takes no memory.
    pub fn len(&self) -> usize
        ensures count { result ≡ length self.now }
        ensures books { AreBooks self.now }
    {
        self.kept.len()
    }

    /// Whether no key is kept. Takes no memory.
    pub fn is_empty(&self) -> bool
        ensures { IsTrue result ↔ (length self.now ≡ 0) }
    {
        self.kept.is_empty()
    }

    /// The kept keys, in order.
    ///
    /// # Errors
    ///
    /// `AllocError` where memory was wanted.
    pub fn keys(&self, alloc: Global) -> Result<Keys, AllocError>
        ensures listed { IfOk result (λ keys. keys ≡ keys_of self.now) }
        ensures books { AreBooks self.now }
    {
        let keys = self.kept.keys().copied().collect(alloc)?;
        Ok(Items::from_vec(keys))
    }

    /// Each key with its record, in key order. Takes no memory.
    pub fn iter(&self) -> Iter<'_, PubKey, Record>
        ensures entries { result ≡ self.now }
        ensures books { AreBooks self.now }
    {
        self.kept.iter()
    }

    /// Makes ready for these books, of which each key is listed once: each listed key is kept, with room for its
    /// book. The keys that were not kept are given. `has_room` says whether there is room beside; without it
    /// nothing is made ready.
    ///
    /// # Errors
    ///
    /// `TooManyKeys` exactly where there would be more than 65,536 keys, and `OutOfMemory`. Each record keeps
    /// what it kept.
    pub fn prepare(
        &mut self,
        listed: &[(PubKey, Book)],
        has_room: bool,
    ) -> Result<Fresh, MergeFault>
        requires { EachOnce listed.now }
        ensures prepared { IfOk result (λ fresh. IsPrepared self.old listed.now fresh self.new) }
        ensures within { OnOk result (length self.old + new_keys self.old listed.now ≤ key_limit) }
        ensures room { OnOk result (IsTrue has_room) }
        ensures fault { IfErr result (IsMergeFault self.old listed.now) }
        ensures err { OnErr result ((pasts : List (PubKey × Past)) → BooksStand self.old pasts → BooksStand self.new pasts) }
        ensures same { OnErr result (EachKey SameParts self.old self.new) }
    {
        let fresh = prepare_books(&mut self.kept, self.alloc, listed, has_room)?;
        Ok(Items::from_vec(fresh))
    }

    /// Merges the books that were made ready for: of each listed key the past gains the book (EIP-3076), and a
    /// key that was not kept begins with it. Takes no memory.
    pub fn merge_prepared(&mut self, listed: &[(PubKey, Book)])
        requires once { EachOnce listed.now }
        requires ready { (before : List (PubKey × Parts)) × (fresh : List PubKey) × IsPrepared before listed.now fresh self.old }
        // For each key by itself: no other key's record need stand for a past.
        ensures each { (before : List (PubKey × Parts)) (fresh : List PubKey) → IsPrepared before listed.now fresh self.old → EachTakes TakesBook listed.now before self.new }
        ensures stands { (before : List (PubKey × Parts)) (fresh : List PubKey) (pasts : List (PubKey × Past)) → IsPrepared before listed.now fresh self.old
            → BooksStand before pasts → BooksStand self.new (with_file pasts listed.now) }
    {
        merge_books(&mut self.kept, listed);
    }

    /// Keeps a key that was not kept, with no past; a key that is kept stays. The key is given where it was not
    /// kept.
    ///
    /// # Errors
    ///
    /// `TooManyKeys` exactly where 65,536 keys are kept and this is another, and `OutOfMemory`. Nothing has
    /// changed then.
    pub fn prepare_key(&mut self, key: PubKey) -> Result<Fresh, BeginFault>
        ensures known { IfOk result (λ fresh. (pasts : List (PubKey × Past)) → BooksStand self.old pasts
            → BooksStand self.new (if is_some (kept_of pasts key) then pasts else with_key pasts key no_past)) }
        ensures fresh { IfOk result (λ fresh. AreTaken self.old fresh self.new) }
        ensures knows { IfOk result (λ fresh. Knows self.old self.new key [] fresh) }
        ensures within { OnOk result (kept_of self.old key ≡ None → length self.old < key_limit) }
        ensures fault { IfErr result (IsBeginFault self.old key) }
        ensures err { OnErr result (self.new ≡ self.old) }
    {
        let fresh = make_fresh(&mut self.kept, self.alloc, key)?;
        Ok(Items::from_vec(fresh))
    }

    /// Takes back what was made ready, where the fresh keys are those that were given: they are kept no more,
    /// and each other record keeps what it kept. Takes no memory.
    pub fn take_back(&mut self, fresh: Fresh)
        requires { (before : List (PubKey × Parts)) × AreTaken before fresh self.old }
        ensures gone { All (λ key. kept_of self.new key ≡ None) fresh }
        ensures others { (key : PubKey) → All (λ other. is_at (key_cmp other) key ≡ false) fresh → kept_of self.new key ≡ kept_of self.old key }
        ensures same { (before : List (PubKey × Parts)) → AreTaken before fresh self.old → EachKey SameParts before self.new }
        ensures stands { (before : List (PubKey × Parts)) (pasts : List (PubKey × Past)) → AreTaken before fresh self.old → BooksStand before pasts → BooksStand self.new pasts }
    {
        take_out(&mut self.kept, fresh.into_vec());
    }

    /// Judges a message by the past of its key, and makes room for it there. `has_room` says whether there is
    /// room beside. Each record keeps what it kept.
    pub fn judge(&mut self, key: &PubKey, message: &Message, has_room: bool) -> Judged
        ensures same { EachKey SameParts self.old self.new }
        ensures by_record { JudgesBy (kept_of self.old key.now) message.now result }
        // By the key's own record: no other key's record need stand for a past.
        ensures by_past { (past : Option Past) → StandsOf (kept_of self.old key.now) past → JudgesPast past message.now result }
        ensures judged { (pasts : List (PubKey × Past)) → BooksStand self.old pasts → Judges pasts key.now message.now result × BooksStand self.new pasts }
        ensures ready { (repeat : Bool) → result ≡ Judged.Ready repeat → IsReadyFor self.new key.now message.now × IsTrue has_room }
    {
        judge(&mut self.kept, key, message, has_room)
    }

    /// Takes a message that was judged ready into the past of its key. A repeat changes no record. Takes no
    /// memory.
    pub fn add(&mut self, key: &PubKey, message: &Message)
        requires { IsReadyFor self.old key.now message.now }
        ensures takes { Takes TakesMessage self.old self.new key.now message.now }
        ensures stands { (pasts : List (PubKey × Past)) → BooksStand self.old pasts → BooksStand self.new (own_grown pasts key.now message.now) }
    {
        add(&mut self.kept, key, message);
    }

    /// Judges messages of different keys by the pasts of their keys, and makes room for them there, up to the
    /// first that does not pass, is kept already, or has no room. Each record keeps what it kept.
    pub fn judge_all(&mut self, listed: &[(PubKey, Message)]) -> JudgedAll
        requires { EachOnce listed.now }
        ensures same { EachKey SameParts self.old self.new }
        ensures ready { result ≡ JudgedAll.Ready → AreReadyFor self.new listed.now }
        ensures own { result ≡ JudgedAll.Ready → AreNewIn self.old listed.now }
        ensures new { result ≡ JudgedAll.Ready → (pasts : List (PubKey × Past)) → BooksStand self.old pasts → AreNew pasts listed.now }
        ensures unfit { result ≡ JudgedAll.Unfit → (pasts : List (PubKey × Past)) → BooksStand self.old pasts → ¬ (AreNew pasts listed.now) }
        ensures stands { (pasts : List (PubKey × Past)) → BooksStand self.old pasts → BooksStand self.new pasts }
    {
        judge_all(&mut self.kept, listed)
    }

    /// Takes messages of different keys that were judged ready into the pasts of their keys. Takes no memory.
    pub fn add_all(&mut self, listed: &[(PubKey, Message)])
        requires once { EachOnce listed.now }
        requires ready { AreReadyFor self.old listed.now }
        ensures each { EachTakes TakesMessage listed.now self.old self.new }
        ensures stands { (pasts : List (PubKey × Past)) → BooksStand self.old pasts → BooksStand self.new (with_messages pasts listed.now) }
    {
        add_all(&mut self.kept, listed);
    }

    /// Keeps a key that is not kept with this record. A key that is kept stays as it is.
    ///
    /// # Errors
    ///
    /// `TooManyKeys` exactly where 65,536 keys are kept and this is another, and `OutOfMemory`. Nothing has
    /// changed then.
    pub fn insert(&mut self, key: PubKey, record: Record) -> Result<(), BeginFault>
        ensures known { IsSome (kept_of self.old key) → OnOk result (self.new ≡ self.old) }
        ensures inserted { OnOk result (kept_of self.old key ≡ None → self.new ≡ with_key self.old key «record») }
        ensures within { OnOk result (kept_of self.old key ≡ None → length self.old < key_limit) }
        ensures fault { IfErr result (IsBeginFault self.old key) }
        ensures err { OnErr result (self.new ≡ self.old) }
        ensures limit { length self.old ≤ key_limit → length self.new ≤ key_limit }
    {
        insert_new(&mut self.kept, key, record)
    }

    /// Merges what an imported file lists, which lists each key once: of each of its keys the past gains the
    /// book (EIP-3076), and a key that was not kept begins with it. Other keys stay as they are. `has_room` says
    /// whether there is room beside; without it nothing is merged.
    ///
    /// # Errors
    ///
    /// `TooManyKeys` exactly where there would be more than 65,536 keys, and `OutOfMemory`. Each record keeps
    /// what it kept.
    pub fn merge_file(&mut self, file: &File, has_room: bool) -> Result<(), MergeFault>
        requires { EachOnce file.now.books }
        // For each key by itself: no other key's record need stand for a past.
        ensures each { OnOk result (EachTakes TakesBook file.now.books self.old self.new) }
        ensures merged { OnOk result ((pasts : List (PubKey × Past)) → BooksStand self.old pasts
            → BooksStand self.new (with_file pasts file.now.books)) }
        ensures within { OnOk result (length self.old + new_keys self.old file.now.books ≤ key_limit) }
        ensures len { OnOk result (length self.new ≡ length self.old + new_keys self.old file.now.books) }
        ensures room { OnOk result (IsTrue has_room) }
        ensures fault { IfErr result (IsMergeFault self.old file.now.books) }
        ensures err { OnErr result ((pasts : List (PubKey × Past)) → BooksStand self.old pasts → BooksStand self.new pasts) }
        ensures same { OnErr result (EachKey SameParts self.old self.new) }
        ensures others { KeepsOthers file.now.books self.old self.new }
    {
        let books = file.books.as_slice();
        prepare_books(&mut self.kept, self.alloc, books, has_room)?;
        merge_books(&mut self.kept, books);
        Ok(())
    }

    /// Joins the records of others: of a key that both keep the two pasts come together, and a key that one of
    /// them keeps has its past. Keys that the others do not keep stay as they are.
    ///
    /// # Errors
    ///
    /// `TooManyKeys` exactly where there would be more than 65,536 keys, and `OutOfMemory`. Each record keeps
    /// what it kept.
    pub fn join(&mut self, other: &Books) -> Result<(), MergeFault>
        // For each key by itself: no other key's record need stand for a past.
        ensures each { OnOk result (EachTakes TakesRecord other.now self.old self.new) }
        ensures joined { OnOk result ((pasts others : List (PubKey × Past)) → BooksStand self.old pasts → BooksStand other.now others
            → BooksStand self.new (joined pasts others)) }
        ensures within { OnOk result (length self.old + new_keys self.old other.now ≤ key_limit) }
        ensures len { OnOk result (length self.new ≡ length self.old + new_keys self.old other.now) }
        ensures fault { IfErr result (IsMergeFault self.old other.now) }
        ensures err { OnErr result ((pasts : List (PubKey × Past)) → BooksStand self.old pasts → BooksStand self.new pasts) }
        ensures same { OnErr result (EachKey SameParts self.old self.new) }
        ensures others { KeepsOthers other.now self.old self.new }
    {
        let new = new_records(&self.kept, &other.kept);
        if let Some(fault) = over_limit(self.kept.len(), new) {
            return Err(fault);
        }
        let Ok(()) = prepare_records(&mut self.kept, self.alloc, &other.kept) else {
            return Err(MergeFault::OutOfMemory);
        };
        join_records(&mut self.kept, &other.kept);
        Ok(())
    }
}
