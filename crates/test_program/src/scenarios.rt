//! Scenarios as texts.

/// Two datagrams of 70 bytes over a link of 8 Mbit/s and 1 ms.
pub const TWO_DATAGRAMS: &str = "format = 1
nodes = 2
stop_ns = 10000000
[[link]]
a = 0
b = 1
a_addr = \"10.1.1.1\"
b_addr = \"10.1.1.2\"
rate_bps = 8000000
delay_ns = 1000000
pcap = true
[[app]]
kind = \"udp-sink\"
node = 1
port = 9
[[app]]
kind = \"udp-send\"
node = 0
dst = \"10.1.1.2\"
port = 9
start_ns = 0
count = 2
interval_ns = 1000000
size = 70
";

/// A client sends one datagram over a link, and a server sends it back.
pub const ECHO: &str = "format = 1
nodes = 2
stop_ns = 10000000000
ascii = false
[[link]]
a = 0
b = 1
a_addr = \"10.1.1.1\"
b_addr = \"10.1.1.2\"
rate_bps = 5000000
delay_ns = 2000000
pcap = true
[[app]]
kind = \"udp-echo-server\"
node = 1
port = 9
[[app]]
kind = \"udp-echo-client\"
node = 0
dst = \"10.1.1.2\"
port = 9
start_ns = 2000000000
count = 1
interval_ns = 1000000000
size = 1024
";

/// The router on node 1 has no route to where node 0 sends.
pub const NO_ROUTE: &str = "format = 1
nodes = 3
stop_ns = 60000000000
[[link]]
a = 0
b = 1
a_addr = \"10.1.1.1\"
b_addr = \"10.1.1.2\"
rate_bps = 1000000
delay_ns = 1000000
pcap = true
[[link]]
a = 1
b = 2
a_addr = \"10.1.2.1\"
b_addr = \"10.1.2.2\"
rate_bps = 1000000
delay_ns = 1000000
[[route]]
node = 0
dest = \"10.9.0.0\"
prefix = 16
via = \"10.1.1.2\"
[[app]]
kind = \"udp-send\"
node = 0
dst = \"10.9.0.1\"
port = 9
start_ns = 0
count = 1
interval_ns = 1000000000
size = 100
";

/// Both nodes of a link send to each other, and each may schedule five events.
pub const FIVE_EVENTS: &str = "format = 1
nodes = 2
stop_ns = 60000000000
events_per_node = 5
[[link]]
a = 0
b = 1
a_addr = \"10.1.1.1\"
b_addr = \"10.1.1.2\"
rate_bps = 8000000
delay_ns = 1000000
pcap = true
[[app]]
kind = \"udp-sink\"
node = 0
port = 9
[[app]]
kind = \"udp-sink\"
node = 1
port = 9
[[app]]
kind = \"udp-send\"
node = 0
dst = \"10.1.1.2\"
port = 9
start_ns = 0
count = 10
interval_ns = 1000000
size = 70
[[app]]
kind = \"udp-send\"
node = 1
dst = \"10.1.1.1\"
port = 9
start_ns = 500000
count = 10
interval_ns = 1000000
size = 70
";

/// Five nodes in a chain of links with delays of 1000, 3000, 2000 and 0 ns, on which nothing happens.
pub const CHAIN: &str = "format = 1
nodes = 5
stop_ns = 60000000000
[[link]]
a = 0
b = 1
a_addr = \"10.1.1.1\"
b_addr = \"10.1.1.2\"
rate_bps = 8000000
delay_ns = 1000
[[link]]
a = 1
b = 2
a_addr = \"10.1.2.1\"
b_addr = \"10.1.2.2\"
rate_bps = 8000000
delay_ns = 3000
[[link]]
a = 2
b = 3
a_addr = \"10.1.3.1\"
b_addr = \"10.1.3.2\"
rate_bps = 8000000
delay_ns = 2000
[[link]]
a = 3
b = 4
a_addr = \"10.1.4.1\"
b_addr = \"10.1.4.2\"
rate_bps = 8000000
delay_ns = 0
";

/// Two nodes of a LAN send to the third.
pub const THREE_ON_A_LAN: &str = "format = 1
nodes = 3
stop_ns = 60000000000
ascii = false
[[lan]]
members = [0, 1, 2]
addrs = [\"10.1.1.1\", \"10.1.1.2\", \"10.1.1.3\"]
rate_bps = 100000000
delay_ns = 1000
pcap = true
[[app]]
kind = \"udp-sink\"
node = 2
port = 9
[[app]]
kind = \"udp-send\"
node = 0
dst = \"10.1.1.3\"
port = 9
start_ns = 1000000000
[[app]]
kind = \"udp-send\"
node = 1
dst = \"10.1.1.3\"
port = 9
start_ns = 1000000000
";
