//! That code and definitions have the same limits.

ghost use Rattle.std.specs.Prelude.{◌≡◌};
ghost use Rattle.rr_types.specs.Limits.{max_nodes, instance_count, open_count, last_round, max_group, max_text};

use crate::fact::GROUP;
use crate::name::{MAX_NAME, MAX_VALUE};
use crate::node::MAX_NODES;
use crate::round::{INSTANCES, MAX_ROUND, OPEN_INSTANCES};

/// The limits of the code are those of the definitions. It does nothing when it runs.
pub fn limits()
    ensures nodes { MAX_NODES ≡ max_nodes }
    ensures instances { INSTANCES ≡ instance_count }
    ensures open { OPEN_INSTANCES ≡ open_count }
    ensures rounds { MAX_ROUND ≡ last_round }
    ensures groups { GROUP ≡ max_group }
    ensures names { MAX_NAME ≡ max_text }
    ensures values { MAX_VALUE ≡ max_text }
{}
