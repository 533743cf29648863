//! Laws of the definitions.

ghost use Rattle.std.specs.Prelude.{◌≡◌, ℕ, [], All, List, Option, Some, map};
ghost use Rattle.std.specs.List.{flat_map};
ghost use Rattle.bw_model.specs.Contents.{IsSaid, MayBeSaid};
ghost use Rattle.bw_file.specs.declared.version.Version.{Version as AnyVersion};
ghost use Rattle.bw_model.specs.Filing.{Holds, HoldsBy};
ghost use Rattle.bw_model.specs.Named.{AreNamed};
ghost use Rattle.bw_model.specs.Refusals.{refused_early};
ghost use Rattle.bw_model.specs.ReplyText.{reply_text};
ghost use Rattle.bw_model.specs.Step.{Step};
ghost use Rattle.bw_model.specs.Store.{Store, Table as AnyTable};
ghost use Rattle.bw_model.specs.Told.{IsReply, as_read};
ghost use Rattle.bw_model.specs.WellFormed.{IsStore};
ghost use Rattle.bw_model.specs.declared.content.Content.{Content as AnyContent};
ghost use Rattle.bw_model.specs.declared.refusal.Refusal.{Refusal as AnyRefusal};
ghost use Rattle.bw_model.specs.declared.reply.Reply.{Reply as AnyReply};
ghost use Rattle.bw_model.specs.declared.reply.Reply.TheVariants.{Refused};
ghost use Rattle.bw_sql.specs.Brought.{names_brought};
ghost use Rattle.bw_sql.specs.Names.{IsName};
ghost use Rattle.bw_sql.specs.Tree.{StatementTree};

/// A statement that is refused changes nothing.
pub fn refusals_change_nothing()
    ensures { (store after : Store) (said : AnyContent) (statement : StatementTree) (refusal : AnyRefusal) → Step store said statement (Refused refusal) after → after ≡ store }
{}

/// A statement that is refused whatever its file contains is refused for its first reason, also where it runs out of
/// memory.
pub fn refusals_need_no_memory()
    ensures { (store after : Store) (said : AnyContent) (statement : StatementTree) (reply : AnyReply) (refusal : AnyRefusal) → refused_early store statement ≡ Some refusal → Step store said statement reply after → (reply ≡ Refused refusal) × (after ≡ store) }
{}

/// A store without tables is well formed, and every statement keeps a well-formed store well formed, whatever its file
/// contains.
pub fn stores_stay_well_formed()
    ensures empty { IsStore [] }
    ensures kept { (store after : Store) (said : AnyContent) (statement : StatementTree) (reply : AnyReply) → IsStore store → MayBeSaid store statement said → Step store said statement reply after → IsStore after }
{}

/// The concatenated bytes of replies determine where each reply ends and which one it is, except that the headings
/// `COLUMNS` and `ROWS` of a list of tables read like columns of these names.
pub fn texts_tell_replies()
    ensures { (a b : List AnyReply) → All IsReply a → All IsReply b → flat_map reply_text a ≡ flat_map reply_text b → map as_read a ≡ map as_read b }
{}

/// Over a well-formed store whose names are valid, each reply of a step is determined by its text; and names stay valid
/// as long as statements bring in only valid names. No text parses to a statement that brings in others
/// (`names_are_names`).
pub fn replies_are_told()
    ensures empty { AreNamed [] }
    ensures kept { (store after : Store) (said : AnyContent) (statement : StatementTree) (reply : AnyReply) → AreNamed store → All IsName (names_brought statement) → MayBeSaid store statement said → Step store said statement reply after → AreNamed after }
    ensures told { (store after : Store) (said : AnyContent) (statement : StatementTree) (reply : AnyReply) → IsStore store → AreNamed store → MayBeSaid store statement said → Step store said statement reply after → IsReply reply }
{}

/// Bytes hold at most one table, whatever the version of the format, and in a version exactly one list of bytes holds a
/// table: what is opened is what was saved.
pub fn one_table_a_file()
    ensures tables { (bytes : List ℕ) (table other : AnyTable) → Holds bytes table → Holds bytes other → table ≡ other }
    ensures bytes { (version : AnyVersion) (bytes others : List ℕ) (table : AnyTable) → HoldsBy version bytes table → HoldsBy version others table → bytes ≡ others }
{}

/// A file tells a statement one thing only.
pub fn one_content()
    ensures { (store : Store) (statement : StatementTree) (file : Option (List ℕ)) (said other : AnyContent) → IsSaid store statement file said → IsSaid store statement file other → said ≡ other }
{}
