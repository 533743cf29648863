//! The headers of columns as bytes, and back.

ghost use Rattle.std.specs.Prelude.{All, IfOk, IfSome, IsTrue, List, None, OnOk, Some, length, map, not, ◌*◌, ◌++◌, ◌+◌, ◌≡◌, ◌≤◌, ℕ};
ghost use Rattle.std.specs.List.{flat_map, list_any, sum_by};
ghost use Rattle.std.specs.Str.{bytes_eq};
ghost use Rattle.bw_code.specs.Headers.{column_limit};
ghost use Rattle.bw_sql.specs.Names.{are_distinct, IsName};
ghost use Rattle.bw_code.specs.declared.kind.Kind.{Kind};
ghost use Rattle.bw_code.specs.declared.kind.Layout.{Layout};
ghost use Rattle.bw_code.specs.declared.kind.ColumnType.{ColumnType};
ghost use Rattle.bw_file.specs.Format.{HasType};
ghost use Rattle.bw_file.specs.Headers.{header_bytes, header_size, kind_number, layout_number, type_bytes, type_number};
ghost use Rattle.bw_code.specs.Types.{holds_its_type};
ghost use Rattle.bw_file.specs.Table.{Header as AnyHeader};
ghost use Rattle.bw_code.specs.declared.kind.ColumnType.TheVariants.{Integer};
ghost use Rattle.bw_file.specs.declared.version.Version.TheVariants.{First, Second};

use crate::version::Version;
use bw_code::{ColumnType, Header, Kind, Layout};
use bw_sql::{Name, is_name};
use std::alloc::{AllocError, Global};

/// How many bytes the headers have in version 2.
pub(crate) fn headers_size(headers: &[Header<Name>]) -> u64
    requires { length headers.now ≤ column_limit }
    ensures size { result ≡ sum_by (header_size Second) headers.now }
    ensures bound { result ≤ 132 * length headers.now }
{
    let mut size = 0;
    'headers: for i in 0..headers.len() {
        size += 4 + name_length(&headers[i].name);
    }
    size
}

/// How many bytes the name has.
#[tactic(auto, using(crate::proofs::Lengths::name_short))]
fn name_length(name: &Name) -> u64
    ensures value { result ≡ length name.now }
    ensures short { result ≤ 128 }
{
    name.as_bytes().len() as u64
}

/// Appends the bytes of headers, in version 2.
pub(crate) fn put_headers(bytes: &mut Vec<u8>, headers: &[Header<Name>]) -> Result<(), AllocError>
    ensures { OnOk result (bytes.new.items ≡ bytes.old.items ++ flat_map (header_bytes Second) headers.now) }
{
    'headers: for i in 0..headers.len() {
        put_header(bytes, &headers[i])?;
    }
    Ok(())
}

/// Appends the bytes of a header, in version 2.
fn put_header(bytes: &mut Vec<u8>, header: &Header<Name>) -> Result<(), AllocError>
    ensures { OnOk result (bytes.new.items ≡ bytes.old.items ++ header_bytes Second header.now) }
{
    bytes.push(name_length(&header.name) as u8)?;
    bytes.extend_from_slice(header.name.as_bytes())?;
    bytes.push(type_number(header.column_type))?;
    bytes.push(layout_number(header.layout))?;
    bytes.push(kind_number(header.kind))?;
    Ok(())
}

fn type_number(column_type: ColumnType) -> u8
    ensures { result ≡ type_number column_type }
{
    match column_type {
        ColumnType::Integer => 0,
        ColumnType::BigInt => 1,
    }
}

fn layout_number(layout: Layout) -> u8
    ensures { result ≡ layout_number layout }
{
    match layout {
        Layout::P => 0,
        Layout::V => 1,
        Layout::H => 2,
        Layout::S => 3,
    }
}

fn kind_number(kind: Kind) -> u8
    ensures { result ≡ kind_number kind }
{
    match kind {
        Kind::Offset => 0,
        Kind::Dictionary => 1,
    }
}

/// The type with this number.
fn type_of(number: u8) -> Option<ColumnType>
    ensures found { IfSome result (λ column_type. number ≡ type_number column_type) }
    ensures none { result ≡ None → (column_type : ColumnType) → number ≡ type_number column_type → ⊥ }
{
    match number {
        0 => Some(ColumnType::Integer),
        1 => Some(ColumnType::BigInt),
        _ => None,
    }
}

/// The layout with this number.
fn layout_of(number: u8) -> Option<Layout>
    ensures found { IfSome result (λ layout. number ≡ layout_number layout) }
    ensures none { result ≡ None → (layout : Layout) → number ≡ layout_number layout → ⊥ }
{
    match number {
        0 => Some(Layout::P),
        1 => Some(Layout::V),
        2 => Some(Layout::H),
        3 => Some(Layout::S),
        _ => None,
    }
}

/// The kind with this number.
fn kind_of(number: u8) -> Option<Kind>
    ensures found { IfSome result (λ kind. number ≡ kind_number kind) }
    ensures none { result ≡ None → (kind : Kind) → number ≡ kind_number kind → ⊥ }
{
    match number {
        0 => Some(Kind::Offset),
        1 => Some(Kind::Dictionary),
        _ => None,
    }
}

/// The given number of headers of this version at the start of the bytes, and the bytes after them; `None` if they are
/// not there.
pub(crate) fn read_headers<'a>(
    alloc: Global,
    version: Version,
    bytes: &'a [u8],
    count: usize,
) -> Result<Option<(Vec<Header<Name>>, &'a [u8])>, AllocError>
    ensures count { IfOk result (λ found. IfSome found (λ f. length f.0.items ≡ count)) }
    ensures types { IfOk result (λ found. IfSome found (λ f. All (HasType version) f.0.items)) }
    ensures held { IfOk result (λ found. IfSome found (λ f. All (λ header. IsTrue (holds_its_type header)) f.0.items)) }
    ensures bytes { IfOk result (λ found. IfSome found (λ f. bytes.entry.now ≡ flat_map (header_bytes version) f.0.items ++ f.1.now)) }
    ensures none { IfOk result (λ found. found ≡ None → (headers : List AnyHeader) (tail : List ℕ) → length headers ≡ count → All (λ header. IsName header.name) headers
        → All (HasType version) headers → All (λ header. IsTrue (holds_its_type header)) headers → bytes.entry.now ≡ flat_map (header_bytes version) headers ++ tail → ⊥) }
{
    let mut headers = Vec::with_capacity(alloc, count)?;
    let mut rest = bytes;
    'headers: for i in 0..count {
        let found = read_header(alloc, version, rest)?;
        let Some((header, after)) = found else {
            return Ok(None);
        };
        headers.push(header)?;
        rest = after;
    }
    Ok(Some((headers, rest)))
}

/// The header of this version at the start of the bytes, and the bytes after it; `None` if there is none.
fn read_header<'a>(
    alloc: Global,
    version: Version,
    bytes: &'a [u8],
) -> Result<Option<(Header<Name>, &'a [u8])>, AllocError>
    ensures kept { IfOk result (λ found. IfSome found (λ f. HasType version f.0 × IsTrue (holds_its_type f.0))) }
    ensures header { IfOk result (λ found. IfSome found (λ f. bytes.entry.now ≡ header_bytes version f.0 ++ f.1.now)) }
    ensures none { IfOk result (λ found. found ≡ None → (header : AnyHeader) (tail : List ℕ) → IsName header.name → HasType version header → IsTrue (holds_its_type header)
        → bytes.entry.now ≡ header_bytes version header ++ tail → ⊥) }
{
    let [size, rest @ ..] = bytes else {
        return Ok(None);
    };
    let size = usize::from(*size);
    if rest.len() < size {
        return Ok(None);
    }
    let (name, numbers) = rest.split_at(size);
    let Some((column_type, numbers)) = read_type(version, numbers) else {
        return Ok(None);
    };
    let [layout, kind, after @ ..] = numbers else {
        return Ok(None);
    };
    let Some(layout) = layout_of(*layout) else {
        return Ok(None);
    };
    let Some(kind) = kind_of(*kind) else {
        return Ok(None);
    };
    if !layout.holds(column_type) {
        return Ok(None);
    }
    if !is_name(name) {
        return Ok(None);
    }
    let name = Name::from_bytes(alloc, name)?;
    let header = Header {
        name,
        column_type,
        layout,
        kind,
    };
    Ok(Some((header, after)))
}

/// The type at the start of the bytes, and the bytes after it; `None` if there is none. Version 1 has no byte for it.
fn read_type<'a>(version: Version, bytes: &'a [u8]) -> Option<(ColumnType, &'a [u8])>
    ensures first { version ≡ First → IfSome result (λ f. f.0 ≡ Integer) }
    ensures bytes { IfSome result (λ f. bytes.entry.now ≡ type_bytes version f.0 ++ f.1.now) }
    ensures none { result ≡ None → (column_type : ColumnType) (tail : List ℕ) → bytes.entry.now ≡ type_bytes version column_type ++ tail → ⊥ }
{
    match version {
        Version::First => Some((ColumnType::Integer, bytes)),
        Version::Second => {
            let [number, rest @ ..] = bytes else {
                return None;
            };
            Some((type_of(*number)?, rest))
        }
    }
}

/// Whether two headers have the same name.
pub(crate) fn has_name_twice(headers: &[Header<Name>]) -> bool
    ensures { result ≡ not (are_distinct (map (λ header. header.name) headers.now)) }
{
    'names: for i in 0..headers.len() {
        if has_name(&headers[i + 1..], &headers[i].name) {
            return true;
        }
    }
    false
}

/// Whether one of the headers has this name.
fn has_name(headers: &[Header<Name>], name: &Name) -> bool
    ensures { result ≡ list_any (λ header. bytes_eq name.now header.name) headers.now }
{
    headers.iter().any(|header| name == &header.name)
}

/// The names of headers are valid names. Their type says so: this only reads it, and compiles to nothing.
pub(crate) fn have_names(headers: &[Header<Name>])
    ensures { All (λ header. IsName header.name) headers.now }
{
    for header in headers {
        let _name = header.name.as_bytes();
    }
}
