//! Each call goes through a separate function without a contract. So the terms of its clauses come
//! only into the proof of that function, and a test sees plain bytes.

mod bytes;
mod inputs;
mod klog;
mod lines;
mod pcie;
mod sections;
mod stored;
