//! The commands that are passed on whole: how many words they take, and where their keys stand.
//!
//! Source: Redis command reference, `COMMAND` of Redis 7.0. tests/real compares each row with that server.

use crate::table::CountStyle::{Function, Pop, Script, SetCard, SortedSets};
use crate::table::KeySpec::{At, Counted, CountedInto, Sorted, Stored, Streams, ToEnd};
use crate::table::WordCount::{AtLeast, Exactly};

/// How many words a request has, its name among them.
#[derive(Clone, Copy, Debug)]
pub enum WordCount {
    Exactly(usize),
    AtLeast(usize),
}

/// Where the keys of a request stand among its words, of which the name is word 0.
#[derive(Clone, Copy, Debug)]
pub enum KeySpec {
    /// From the first place to the last.
    At(u8, u8),
    /// From the first place to the end, in steps.
    ToEnd(usize, usize),
    /// Behind their number, which stands at the place.
    Counted(usize, CountStyle),
    /// The same, and word 1 is a key too: the result goes there.
    CountedInto(usize, CountStyle),
    /// Word 1, and the word behind STORE or STOREDIST, which is looked for from the place on.
    Stored(usize),
    /// The same from word 2 on. BY and GET read keys that the request does not name.
    Sorted,
    /// The first half of the words behind STREAMS, which is looked for from the place on. BLOCK stands in front of it.
    Streams(usize),
}

/// How a server refuses a number of keys.
#[derive(Clone, Copy, Debug)]
pub enum CountStyle {
    Script,
    Function,
    SortedSets,
    SetCard,
    Pop,
}

/// How many words a command takes, and where its keys stand.
#[derive(Clone, Copy, Debug)]
pub struct Shape {
    pub words: WordCount,
    pub keys: KeySpec,
}

/// A column of the table: the names, or the shapes.
macro_rules! column {
    (names $(($name:literal, $words:expr, $keys:expr),)*) => {
        [$($name),*]
    };
    (shapes $(($name:literal, $words:expr, $keys:expr),)*) => {
        [$(Shape { words: $words, keys: $keys }),*]
    };
}

/// The table: a command's name, behind a bar its subcommand where that has a row of its own, how many words, where keys stand.
macro_rules! table {
    ($column:ident) => {
        column! { $column
            // Strings.
            ("set", AtLeast(3), At(1, 1)),
            ("setex", Exactly(4), At(1, 1)),
            ("psetex", Exactly(4), At(1, 1)),
            ("getex", AtLeast(2), At(1, 1)),
            ("getrange", Exactly(4), At(1, 1)),
            ("setrange", Exactly(4), At(1, 1)),
            ("substr", Exactly(4), At(1, 1)),
            ("incrbyfloat", Exactly(3), At(1, 1)),
            ("decrby", Exactly(3), At(1, 1)),
            ("msetnx", AtLeast(3), ToEnd(1, 2)),
            ("lcs", AtLeast(3), At(1, 2)),
            // Bitmaps.
            ("setbit", Exactly(4), At(1, 1)),
            ("getbit", Exactly(3), At(1, 1)),
            ("bitcount", AtLeast(2), At(1, 1)),
            ("bitpos", AtLeast(3), At(1, 1)),
            ("bitfield", AtLeast(2), At(1, 1)),
            ("bitfield_ro", AtLeast(2), At(1, 1)),
            ("bitop", AtLeast(4), ToEnd(2, 1)),
            // Hashes.
            ("hset", AtLeast(4), At(1, 1)),
            ("hsetnx", Exactly(4), At(1, 1)),
            ("hmset", AtLeast(4), At(1, 1)),
            ("hget", Exactly(3), At(1, 1)),
            ("hmget", AtLeast(3), At(1, 1)),
            ("hgetall", Exactly(2), At(1, 1)),
            ("hkeys", Exactly(2), At(1, 1)),
            ("hvals", Exactly(2), At(1, 1)),
            ("hlen", Exactly(2), At(1, 1)),
            ("hstrlen", Exactly(3), At(1, 1)),
            ("hexists", Exactly(3), At(1, 1)),
            ("hdel", AtLeast(3), At(1, 1)),
            ("hincrby", Exactly(4), At(1, 1)),
            ("hincrbyfloat", Exactly(4), At(1, 1)),
            ("hrandfield", AtLeast(2), At(1, 1)),
            ("hscan", AtLeast(3), At(1, 1)),
            // Lists.
            ("lpush", AtLeast(3), At(1, 1)),
            ("lpushx", AtLeast(3), At(1, 1)),
            ("rpush", AtLeast(3), At(1, 1)),
            ("rpushx", AtLeast(3), At(1, 1)),
            ("lpop", AtLeast(2), At(1, 1)),
            ("rpop", AtLeast(2), At(1, 1)),
            ("llen", Exactly(2), At(1, 1)),
            ("lindex", Exactly(3), At(1, 1)),
            ("linsert", Exactly(5), At(1, 1)),
            ("lpos", AtLeast(3), At(1, 1)),
            ("lrange", Exactly(4), At(1, 1)),
            ("lrem", Exactly(4), At(1, 1)),
            ("lset", Exactly(4), At(1, 1)),
            ("ltrim", Exactly(4), At(1, 1)),
            ("lmove", Exactly(5), At(1, 2)),
            ("rpoplpush", Exactly(3), At(1, 2)),
            ("lmpop", AtLeast(4), Counted(1, Pop)),
            // Sets.
            ("sadd", AtLeast(3), At(1, 1)),
            ("srem", AtLeast(3), At(1, 1)),
            ("scard", Exactly(2), At(1, 1)),
            ("sismember", Exactly(3), At(1, 1)),
            ("smismember", AtLeast(3), At(1, 1)),
            ("smembers", Exactly(2), At(1, 1)),
            ("spop", AtLeast(2), At(1, 1)),
            ("srandmember", AtLeast(2), At(1, 1)),
            ("sscan", AtLeast(3), At(1, 1)),
            ("smove", Exactly(4), At(1, 2)),
            ("sinter", AtLeast(2), ToEnd(1, 1)),
            ("sunion", AtLeast(2), ToEnd(1, 1)),
            ("sdiff", AtLeast(2), ToEnd(1, 1)),
            ("sinterstore", AtLeast(3), ToEnd(1, 1)),
            ("sunionstore", AtLeast(3), ToEnd(1, 1)),
            ("sdiffstore", AtLeast(3), ToEnd(1, 1)),
            ("sintercard", AtLeast(3), Counted(1, SetCard)),
            // Sorted sets.
            ("zadd", AtLeast(4), At(1, 1)),
            ("zincrby", Exactly(4), At(1, 1)),
            ("zrem", AtLeast(3), At(1, 1)),
            ("zcard", Exactly(2), At(1, 1)),
            ("zcount", Exactly(4), At(1, 1)),
            ("zlexcount", Exactly(4), At(1, 1)),
            ("zscore", Exactly(3), At(1, 1)),
            ("zmscore", AtLeast(3), At(1, 1)),
            ("zrank", Exactly(3), At(1, 1)),
            ("zrevrank", Exactly(3), At(1, 1)),
            ("zrange", AtLeast(4), At(1, 1)),
            ("zrangebylex", AtLeast(4), At(1, 1)),
            ("zrangebyscore", AtLeast(4), At(1, 1)),
            ("zrevrange", AtLeast(4), At(1, 1)),
            ("zrevrangebylex", AtLeast(4), At(1, 1)),
            ("zrevrangebyscore", AtLeast(4), At(1, 1)),
            ("zrandmember", AtLeast(2), At(1, 1)),
            ("zpopmin", AtLeast(2), At(1, 1)),
            ("zpopmax", AtLeast(2), At(1, 1)),
            ("zremrangebylex", Exactly(4), At(1, 1)),
            ("zremrangebyrank", Exactly(4), At(1, 1)),
            ("zremrangebyscore", Exactly(4), At(1, 1)),
            ("zscan", AtLeast(3), At(1, 1)),
            ("zrangestore", AtLeast(5), At(1, 2)),
            ("zunion", AtLeast(3), Counted(1, SortedSets)),
            ("zinter", AtLeast(3), Counted(1, SortedSets)),
            ("zdiff", AtLeast(3), Counted(1, SortedSets)),
            ("zintercard", AtLeast(3), Counted(1, SortedSets)),
            ("zunionstore", AtLeast(4), CountedInto(2, SortedSets)),
            ("zinterstore", AtLeast(4), CountedInto(2, SortedSets)),
            ("zdiffstore", AtLeast(4), CountedInto(2, SortedSets)),
            ("zmpop", AtLeast(4), Counted(1, Pop)),
            // Streams.
            ("xadd", AtLeast(5), At(1, 1)),
            ("xdel", AtLeast(3), At(1, 1)),
            ("xtrim", AtLeast(4), At(1, 1)),
            ("xlen", Exactly(2), At(1, 1)),
            ("xrange", AtLeast(4), At(1, 1)),
            ("xrevrange", AtLeast(4), At(1, 1)),
            ("xsetid", AtLeast(3), At(1, 1)),
            ("xack", AtLeast(4), At(1, 1)),
            ("xpending", AtLeast(3), At(1, 1)),
            ("xclaim", AtLeast(6), At(1, 1)),
            ("xautoclaim", AtLeast(6), At(1, 1)),
            ("xgroup|create", AtLeast(5), At(2, 2)),
            ("xgroup|createconsumer", Exactly(5), At(2, 2)),
            ("xgroup|delconsumer", Exactly(5), At(2, 2)),
            ("xgroup|destroy", Exactly(4), At(2, 2)),
            ("xgroup|setid", AtLeast(5), At(2, 2)),
            ("xinfo|stream", AtLeast(3), At(2, 2)),
            ("xinfo|groups", Exactly(3), At(2, 2)),
            ("xinfo|consumers", Exactly(4), At(2, 2)),
            ("xread", AtLeast(4), Streams(1)),
            ("xreadgroup", AtLeast(7), Streams(4)),
            // Places on a map.
            ("geoadd", AtLeast(5), At(1, 1)),
            ("geodist", AtLeast(4), At(1, 1)),
            ("geohash", AtLeast(2), At(1, 1)),
            ("geopos", AtLeast(2), At(1, 1)),
            ("geosearch", AtLeast(7), At(1, 1)),
            ("geosearchstore", AtLeast(8), At(1, 2)),
            ("georadius_ro", AtLeast(6), At(1, 1)),
            ("georadiusbymember_ro", AtLeast(5), At(1, 1)),
            ("georadius", AtLeast(6), Stored(6)),
            ("georadiusbymember", AtLeast(5), Stored(5)),
            // HyperLogLog.
            ("pfadd", AtLeast(2), At(1, 1)),
            ("pfcount", AtLeast(2), ToEnd(1, 1)),
            ("pfmerge", AtLeast(2), ToEnd(1, 1)),
            // Keys of any type.
            ("expire", AtLeast(3), At(1, 1)),
            ("expireat", AtLeast(3), At(1, 1)),
            ("pexpire", AtLeast(3), At(1, 1)),
            ("pexpireat", AtLeast(3), At(1, 1)),
            ("expiretime", Exactly(2), At(1, 1)),
            ("pexpiretime", Exactly(2), At(1, 1)),
            ("ttl", Exactly(2), At(1, 1)),
            ("pttl", Exactly(2), At(1, 1)),
            ("persist", Exactly(2), At(1, 1)),
            ("type", Exactly(2), At(1, 1)),
            ("dump", Exactly(2), At(1, 1)),
            ("restore", AtLeast(4), At(1, 1)),
            ("copy", AtLeast(3), At(1, 2)),
            ("rename", Exactly(3), At(1, 2)),
            ("renamenx", Exactly(3), At(1, 2)),
            ("object|encoding", Exactly(3), At(2, 2)),
            ("object|freq", Exactly(3), At(2, 2)),
            ("object|idletime", Exactly(3), At(2, 2)),
            ("object|refcount", Exactly(3), At(2, 2)),
            ("memory|usage", AtLeast(3), At(2, 2)),
            ("sort", AtLeast(2), Sorted),
            ("sort_ro", AtLeast(2), Sorted),
            // Scripts and functions.
            ("eval", AtLeast(3), Counted(2, Script)),
            ("evalsha", AtLeast(3), Counted(2, Script)),
            ("eval_ro", AtLeast(3), Counted(2, Script)),
            ("evalsha_ro", AtLeast(3), Counted(2, Script)),
            ("fcall", AtLeast(3), Counted(2, Function)),
            ("fcall_ro", AtLeast(3), Counted(2, Function)),
        }
    };
}

/// The names of the rows.
pub const NAMES: [&str; 162] = table!(names);

/// What else is known of each row.
pub const SHAPES: [Shape; 162] = table!(shapes);
