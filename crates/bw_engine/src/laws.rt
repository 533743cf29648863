//! Laws about the definitions.

ghost use Rattle.std.specs.Prelude.{◌≡◌};
ghost use Rattle.bw_sql.specs.Tree.{StatementTree};
ghost use Rattle.bw_model.specs.declared.reply.Reply.{Reply as AnyReply};
ghost use Rattle.bw_engine.specs.StoredChanges.{LeavesStored};
ghost use Rattle.bw_engine.specs.Stores.{Stored, store_of};

/// Slots and encodings after a statement are determined: starting from the same tables, a statement with the same reply
/// and the same rows in each table after it leaves the same slots and the same encodings.
pub fn one_stored()
    ensures { (tables after left : Stored) (statement : StatementTree) (reply : AnyReply) → LeavesStored tables statement reply after → LeavesStored tables statement reply left → store_of after ≡ store_of left → after ≡ left }
{}
