// The motion profile as mathematics: definitions in specs/, laws in proofs/, and no code.
