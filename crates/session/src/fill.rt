// Lists of changes in the record's arrays, with zeros behind them.
ghost use Rattle.std.specs.Prelude.{◌≡◌, ◌≤◌, length};
ghost use Rattle.formats.specs.Limits.{change_limit};
ghost use Rattle.session.specs.Records.{padded};

use formats::limits::CHANGE_LIMIT;

// At most 64 nodes.
pub fn padded_nodes(nodes: &[u16]) -> [u16; CHANGE_LIMIT]
    requires { length nodes.now ≤ change_limit }
    ensures { result ≡ padded change_limit nodes.now }
{
    let mut out = [0u16; CHANGE_LIMIT];
    out[..nodes.len()].copy_from_slice(nodes);
    out
}

// At most 64 labels.
pub fn padded_labels(labels: &[u8]) -> [u8; CHANGE_LIMIT]
    requires { length labels.now ≤ change_limit }
    ensures { result ≡ padded change_limit labels.now }
{
    let mut out = [0u8; CHANGE_LIMIT];
    out[..labels.len()].copy_from_slice(labels);
    out
}
