//! The effect of a REBUILD on a table.

ghost use Rattle.std.specs.Prelude.{◌≡◌, IfOk, MatchOption, OnErr, map};
ghost use Rattle.bw_model.specs.Changes.{chosen_header, with_choices};
ghost use Rattle.bw_model.specs.Refusals.{chosen_columns, first_that_holds, rebuild_tests};
ghost use Rattle.bw_model.specs.declared.reply.Reply.TheVariants.{Done, Refused};

use crate::refusal_tests::{first_that_holds, rebuild_tests};
use crate::reply::Reply;
use crate::store::{Table, same_header};
use crate::words::{kind_or, layout_of};
use bw_code::Header;
use bw_sql::{LayoutChoice, Name};
use std::alloc::{AllocError, Global};

/// Changes the layouts and kinds of columns of this table.
pub(crate) fn rebuild_columns(
    alloc: Global,
    table: &mut Table,
    choices: &[LayoutChoice],
) -> Result<Reply, AllocError>
    ensures outcome { IfOk result (λ reply. MatchOption (first_that_holds (rebuild_tests choices.now table.old))
        ((reply ≡ Done) × (table.new ≡ with_choices choices.now table.old))
        (λ refusal. (reply ≡ Refused refusal) × (table.new ≡ table.old))) }
    ensures unchanged { OnErr result (table.new ≡ table.old) }
{
    let columns = chosen_columns(alloc, choices)?;
    let headers = headers_chosen(alloc, table.headers(), choices)?;
    if let Some(refusal) = first_that_holds(&rebuild_tests(&columns, &headers, choices, table)) {
        return Ok(Reply::Refused(refusal));
    }
    table.replace_headers(headers);
    Ok(Reply::Done)
}

/// The columns that are to be rebuilt.
fn chosen_columns(alloc: Global, choices: &[LayoutChoice]) -> Result<Vec<Name>, AllocError>
    ensures { IfOk result (λ columns. columns.items ≡ chosen_columns choices.now) }
{
    let mut columns = Vec::new(alloc);
    for choice in choices {
        columns.push(choice.column.try_clone(alloc)?)?;
    }
    Ok(columns)
}

/// The columns with the layouts and kinds chosen for them.
fn headers_chosen(
    alloc: Global,
    headers: &[Header<Name>],
    choices: &[LayoutChoice],
) -> Result<Vec<Header<Name>>, AllocError>
    ensures { IfOk result (λ chosen. chosen.items ≡ map (chosen_header choices.now) headers.now) }
{
    let mut chosen = Vec::new(alloc);
    for header in headers {
        chosen.push(chosen_header(alloc, header, choices)?)?;
    }
    Ok(chosen)
}

/// The column with the layout and kind chosen for it. Its type stays, and its kind where none is given.
fn chosen_header(
    alloc: Global,
    header: &Header<Name>,
    choices: &[LayoutChoice],
) -> Result<Header<Name>, AllocError>
    ensures { IfOk result (λ chosen. chosen ≡ chosen_header choices.now header.now) }
{
    for choice in choices {
        if header.name == choice.column {
            return Ok(Header {
                name: header.name.try_clone(alloc)?,
                column_type: header.column_type,
                layout: layout_of(choice.layout),
                kind: kind_or(choice.kind, header.kind),
            });
        }
    }
    same_header(alloc, header)
}
