#![tactic(auto)]

// What a write and a delete leave on a memory card: definitions and theorems in specs/, their proofs in proofs/.
