ghost use Rattle.std.specs.Prelude.{◌≡◌, ◌+◌, ◌-◌, ◌<◌, ◌≤◌, ◌^◌, ◌==◌, ◌++◌, ◌∷◌, length, [], option_map, OnOk, IfOk, IfErr, Err};
ghost use Rattle.std.specs.String.{string_bytes};
ghost use Rattle.zk_records.specs.Sinks.{writer_of, write_failures_of, AppendsSome};
ghost use Rattle.zk_log.specs.Devices.{AsksAtMost, reader_of, reads_of, read_failures_of};
ghost use Rattle.zk_front.specs.Serving.{Serves, reads_failed, writes_failed};
ghost use Rattle.zk_line_protocol.specs.Lines.{IsSplit, IsUnended};
ghost use Rattle.zk_front.specs.Reaching.{Finishes, Goes, Stops, EndsLine, EndsNoLine, EndsAll, EndsEarly, Flushes, IsFresh, MayFlush, StopsInLine, Added, IsStop};
ghost use Rattle.zk_front.specs.declared.fault.FrontFault.TheVariants as faults;

use crate::answering::answer;
use crate::connection::Connection;
use crate::fault::FrontFault;
use crate::service::Service;
use std::alloc::{AllocError, Global};
use std::io::{Read, Write};
use zk_line_protocol::split_line;
use zk_log::{Sink, Source};

/// The most bytes of a read.
const PIECE: usize = 65_536;

/// Serves the lines of an input: each has its reply before the next is parsed, and replies are
/// written before the next read.
pub fn serve_lines<R: Read, W: Write, S: Service>(
    alloc: Global,
    reader: &mut Source<R>,
    writer: &mut Sink<W>,
    service: &mut S,
    turns: u32,
) -> Result<u64, FrontFault>
    requires reads { reads_of reader.old + turns < 2 ^ 64 }
    requires read_failures { read_failures_of reader.old < 2 ^ 64 - 1 }
    requires write_failures { write_failures_of writer.old < 2 ^ 64 - 1 }
    ensures serves { Serves S.does service.old service.new
        (R.remaining (reader_of reader.old)) (R.remaining (reader_of reader.new))
        (W.contents (writer_of writer.old)) (W.contents (writer_of writer.new)) result }
    ensures reads { reads_of reader.new ≤ reads_of reader.old + turns }
    ensures endless { result ≡ Err faults.Endless → reads_of reader.new ≡ reads_of reader.old + turns }
    ensures asks { AsksAtMost 65536 reader.old reader.new }
    ensures read_failures { read_failures_of reader.new ≡ reads_failed (read_failures_of reader.old) result }
    ensures write_failures { write_failures_of writer.new ≡ writes_failed (write_failures_of writer.old) result }
{
    let mut piece = new_piece(alloc)?;
    let mut connection = Connection::new(alloc);
    serve_pieces(
        &mut connection,
        reader,
        writer,
        service,
        piece.as_mut_slice(),
        turns,
    )
}

/// Allocates the buffer of a read.
fn new_piece(alloc: Global) -> Result<Vec<u8>, AllocError>
    ensures { IfOk result (λ piece. (0 < length piece.items) × (length piece.items ≤ 65536)) }
{
    vec![in alloc; 0; PIECE]
}

/// Reads chunks, and replies to the lines that end in each before the next is read.
fn serve_pieces<R: Read, W: Write, S: Service>(
    connection: &mut Connection,
    reader: &mut Source<R>,
    writer: &mut Sink<W>,
    service: &mut S,
    piece: &mut [u8],
    turns: u32,
) -> Result<u64, FrontFault>
    requires reads { reads_of reader.old + turns < 2 ^ 64 }
    requires read_failures { read_failures_of reader.old < 2 ^ 64 - 1 }
    requires write_failures { write_failures_of writer.old < 2 ^ 64 - 1 }
    requires some { 0 < length piece.old }
    requires most { length piece.old ≤ 65536 }
    requires fresh { IsFresh connection.old }
    ensures serves { Serves S.does service.old service.new
        (R.remaining (reader_of reader.old)) (R.remaining (reader_of reader.new))
        (W.contents (writer_of writer.old)) (W.contents (writer_of writer.new)) result }
    ensures reads { reads_of reader.new ≤ reads_of reader.old + turns }
    ensures endless { result ≡ Err faults.Endless → reads_of reader.new ≡ reads_of reader.old + turns }
    ensures asks { AsksAtMost 65536 reader.old reader.new }
    ensures read_failures { read_failures_of reader.new ≡ reads_failed (read_failures_of reader.old) result }
    ensures write_failures { write_failures_of writer.new ≡ writes_failed (write_failures_of writer.old) result }
{
    let mut left = turns;
    'reads: while left > 0 {
        left -= 1;
        match reader.read(piece) {
            Err(_) => return Err(FrontFault::Read),
            Ok(0) => return finish(connection, service, writer),
            Ok(count) => answer_piece(connection, service, writer, &piece[..count])?,
        }
    }
    Err(FrontFault::Endless)
}

/// Replies to the lines that end in a chunk, and writes the replies.
fn answer_piece<W: Write, S: Service>(
    connection: &mut Connection,
    service: &mut S,
    writer: &mut Sink<W>,
    piece: &[u8],
) -> Result<(), FrontFault>
    requires failures { write_failures_of writer.old < 2 ^ 64 - 1 }
    requires room { connection.old.lines + length piece.now < 2 ^ 64 }
    ensures ok { OnOk result (Goes S.does connection.old service.old (W.contents (writer_of writer.old)) piece.now
        connection.new service.new (W.contents (writer_of writer.new))) }
    ensures written { OnOk result (string_bytes connection.new.page ≡ []) }
    ensures err { IfErr result (λ fault. Stops S.does connection.old service.old (W.contents (writer_of writer.old)) piece.now
        fault service.new (W.contents (writer_of writer.new))) }
    ensures few { OnOk result (connection.new.lines ≤ connection.old.lines + length piece.now) }
    ensures failures { write_failures_of writer.new ≡ writes_failed (write_failures_of writer.old) result }
{
    take_piece(connection, service, writer, piece)?;
    connection.flush(writer)
}

/// Ends serving: replies to the last line, if it has no newline, and writes what is left.
fn finish<W: Write, S: Service>(
    connection: &mut Connection,
    service: &mut S,
    writer: &mut Sink<W>,
) -> Result<u64, FrontFault>
    requires failures { write_failures_of writer.old < 2 ^ 64 - 1 }
    requires room { connection.old.lines + 1 < 2 ^ 64 }
    ensures stops { IfErr result IsStop }
    ensures finishes { Finishes S.does connection.old service.old (W.contents (writer_of writer.old)) result service.new (W.contents (writer_of writer.new)) }
    ensures failures { write_failures_of writer.new ≡ writes_failed (write_failures_of writer.old) result }
{
    end_last_line(connection, service)?;
    connection.flush(writer)?;
    Ok(connection.lines)
}

/// Replies to the bytes after the last newline, if there are any.
fn end_last_line<S: Service>(connection: &mut Connection, service: &mut S) -> Result<(), FrontFault>
    requires room { connection.old.lines + 1 < 2 ^ 64 }
    ensures ok { OnOk result (EndsAll S.does connection.old service.old connection.new service.new) }
    ensures err { IfErr result (λ fault. (fault ≡ faults.NoMemory) × EndsEarly S.does connection.old service.old service.new) }
{
    if connection.pending.is_empty() {
        return Ok(());
    }
    end_line(connection, service, false)
}

/// Takes a chunk: replies to each line that has ended.
fn take_piece<W: Write, S: Service>(
    connection: &mut Connection,
    service: &mut S,
    writer: &mut Sink<W>,
    piece: &[u8],
) -> Result<(), FrontFault>
    requires failures { write_failures_of writer.old < 2 ^ 64 - 1 }
    requires room { connection.old.lines + length piece.now < 2 ^ 64 }
    ensures ok { OnOk result (Goes S.does connection.old service.old (W.contents (writer_of writer.old)) piece.now
        connection.new service.new (W.contents (writer_of writer.new))) }
    ensures err { IfErr result (λ fault. Stops S.does connection.old service.old (W.contents (writer_of writer.old)) piece.now
        fault service.new (W.contents (writer_of writer.new))) }
    ensures few { OnOk result (connection.new.lines ≤ connection.old.lines + length piece.now) }
    ensures failures { write_failures_of writer.new ≡ writes_failed (write_failures_of writer.old) result }
{
    let mut rest = piece;
    while let Some((front, back)) = split_line(rest) {
        take_line(connection, service, writer, front)?;
        rest = back;
    }
    connection.keep(rest)?;
    Ok(())
}

/// Takes the end of a line, without its newline: replies to the line.
fn take_line<W: Write, S: Service>(
    connection: &mut Connection,
    service: &mut S,
    writer: &mut Sink<W>,
    text: &[u8],
) -> Result<(), FrontFault>
    requires failures { write_failures_of writer.old < 2 ^ 64 - 1 }
    requires room { connection.old.lines + 1 < 2 ^ 64 }
    requires unended { IsUnended text.now }
    ensures ok { OnOk result (Goes S.does connection.old service.old (W.contents (writer_of writer.old)) (text.now ++ 10 ∷ [])
        connection.new service.new (W.contents (writer_of writer.new))) }
    ensures err { IfErr result (λ fault. StopsInLine S.does connection.old service.old (W.contents (writer_of writer.old)) text.now
        fault service.new (W.contents (writer_of writer.new))) }
    ensures one { OnOk result (connection.new.lines ≡ connection.old.lines + 1) }
    ensures failures { write_failures_of writer.new ≡ writes_failed (write_failures_of writer.old) result }
{
    connection.keep(text)?;
    end_line(connection, service, true)?;
    connection.flush_if_full(writer)
}

/// Replies to the line that was read.
fn end_line<S: Service>(
    connection: &mut Connection,
    service: &mut S,
    ended: bool,
) -> Result<(), FrontFault>
    requires room { connection.old.lines + 1 < 2 ^ 64 }
    ensures ok { OnOk result (EndsLine S.does connection.old service.old ended connection.new service.new) }
    ensures err { IfErr result (λ fault. (fault ≡ faults.NoMemory) × EndsNoLine S.does connection.old service.old ended service.new) }
{
    let alloc = *connection.page.allocator();
    let line = connection.pending.line(ended);
    answer(
        alloc,
        &mut connection.standing,
        service,
        line,
        &mut connection.page,
    )?;
    connection.pending.clear();
    connection.lines += 1;
    Ok(())
}
