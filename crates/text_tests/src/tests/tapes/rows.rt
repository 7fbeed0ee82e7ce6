//! Tapes of runs that were worked out outside this program.

/// Tapes, each with the name of its run.
pub static TAPES: [(&str, &str); 6] = [
    (
        "a_send_struck_out",
        "nodes 1\nsubmit 0 7 1 claim a x\ntake 0\nmark 0\nsend 0 0 0 estimate 0 1 0 7.1 claim a x\nhear 0 0\ntake 0\nmark 0\nsend 1 0 0 proposal 0 1 7.1 claim a x\nhear 0 1\ntake 0\nmark 0\nhear 0 2\ntake 0\nmark 0\nack 0 7.1 claimed\n",
    ),
    (
        "a_take_struck_out",
        "nodes 1\nsubmit 0 7 1 claim a x\nmark 0\nsend 0 0 0 estimate 0 1 0 7.1 claim a x\nhear 0 0\ntake 0\nmark 0\nsend 1 0 0 proposal 0 1 7.1 claim a x\nhear 0 1\ntake 0\nmark 0\nsend 2 0 0 ack 0 1\nhear 0 2\ntake 0\nmark 0\nack 0 7.1 claimed\n",
    ),
    (
        "another_reply",
        "nodes 1\nsubmit 0 7 1 claim a x\ntake 0\nmark 0\nsend 0 0 0 estimate 0 1 0 7.1 claim a x\nhear 0 0\ntake 0\nmark 0\nsend 1 0 0 proposal 0 1 7.1 claim a x\nhear 0 1\ntake 0\nmark 0\nsend 2 0 0 ack 0 1\nhear 0 2\ntake 0\nmark 0\nack 0 7.1 taken 7\n",
    ),
    (
        "another_value",
        "nodes 1\nsubmit 0 7 1 claim a x\ntake 0\nmark 0\nsend 0 0 0 estimate 0 1 0 7.1 claim a y\nhear 0 0\ntake 0\nmark 0\nsend 1 0 0 proposal 0 1 7.1 claim a x\nhear 0 1\ntake 0\nmark 0\nsend 2 0 0 ack 0 1\nhear 0 2\ntake 0\nmark 0\nack 0 7.1 claimed\n",
    ),
    ("no_events", "nodes 3\n"),
    (
        "one_command",
        "nodes 1\nsubmit 0 7 1 claim a x\ntake 0\nmark 0\nsend 0 0 0 estimate 0 1 0 7.1 claim a x\nhear 0 0\ntake 0\nmark 0\nsend 1 0 0 proposal 0 1 7.1 claim a x\nhear 0 1\ntake 0\nmark 0\nsend 2 0 0 ack 0 1\nhear 0 2\ntake 0\nmark 0\nack 0 7.1 claimed\n",
    ),
];
